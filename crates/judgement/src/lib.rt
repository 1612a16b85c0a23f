// The typing judgement of a rule book is definitions and theorems: there is nothing to call.
#![tactic(auto)]

pub fn nothing() {}
