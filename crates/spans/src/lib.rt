#![tactic(auto)]

// What is right from when to when, by the law: the link from the lanes of a card to the events.
//
// No code of its own: what is shown is of the spans of `lanes`, in `specs/Spans`.
