// The rules of contents, which have no code of their own here.
#![tactic(auto)]
