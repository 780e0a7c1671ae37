//! Laws of refused tokens, in the words of the grammar alone.
//!
//! The token that a refusal names is the first after which the tokens begin no file within the
//! limits on depth. Its number is E5 if they begin one without these limits, and else E4. If a
//! refusal is at the end of the text, the tokens begin a file and are not a whole one. A text has
//! at most one such token, and none if its tokens begin a file.
//!
//! Nothing here runs, and no code depends on it: each function of `laws` states a law. `dv_parser`
//! proves that the parser gives exactly this refusal.
#![tactic(auto)]

/// Laws of the token that a refusal names.
pub mod laws;
