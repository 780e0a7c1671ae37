//! Laws of whole models: the compiled model is the model.
//!
//! In the states that fit an accepted model, its programs behave as its rules. Direct links route
//! as the coupling tree does. So a network of programs and links has the trace of the text, for all
//! inputs, horizons and microstep limits. If the program of an external rule goes to a phase, the
//! hold that begins there is not below the response.
//!
//! Nothing here runs: each function of `laws` joins the laws of `dv_gen`, `dv_flat` and `dv_bound`
//! in the words of `dv_plain`. `law_sound` uses them for all processes of a text. Processes do not
//! occur here.
#![tactic(auto)]

/// Laws of every compiled model.
pub mod laws;
