// No code: laws for theorems that no second answer keeps the contract of a function over a lent slice of structs, or over a struct that
// holds a lent slice.

#![tactic(auto)]
