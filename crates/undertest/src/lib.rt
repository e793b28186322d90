#![tactic(auto)]

// Document 02, L14: "A line under test must not matter".
//
// No code of its own: what is shown is of `events` in `specs/UnderTest`, and of `unit` in
// `specs/UnitUnderTest`.
