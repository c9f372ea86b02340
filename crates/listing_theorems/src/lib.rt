// What holds of every listing, and the cases that the page marks. No code: the theorems on listings and their pieces,
// and one table with one statement.
#![tactic(auto)]

use listing::Stand;
