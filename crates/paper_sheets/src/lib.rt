#![tactic(auto)]

// The second half of the methodology as definitions: the morning sheet, the text that is written, the evening sheet and the night. specs/ holds them,
// specs/Promises/ what is claimed of them, proofs/ why each claim holds. No code.
