#![tactic(auto)]

// The methodology as definitions: specs/ holds them, specs/Promises/ what is claimed of them, proofs/ why each claim holds. No code.
