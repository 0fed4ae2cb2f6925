#![tactic(auto)]

// Demand 3 from the prices themselves, as definitions: the exact move as a fraction, and the variance and the candidate that are carried from it with
// nothing rounded. specs/ holds them, specs/Promises/ what is claimed of them, proofs/ why each claim holds. No code.
