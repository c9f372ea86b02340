// The listing's text, as definitions, and their laws. No code: the bytes of numbers, of a row's line and of the other
// lines.
#![tactic(auto)]

use ground::Refusal;
