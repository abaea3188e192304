// What is promised of all entries: one answer for each input, each number given exactly when the rules say, nothing changed on refusal, no calibration
// accepted that names Stall, and the four beliefs of the desk. These are stated in specs/, but for `one-NAME` and `NAME-exactly`, one line each, which stand
// with their proofs.
#![tactic(auto)]
