// What was promised, demand by demand, as statements about the operations' own definitions, and their proofs. No code.
#![tactic(auto)]

use listing::Stand;
