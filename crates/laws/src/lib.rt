// Laws of `model`'s definitions; there is no code here.
#![tactic(auto)]
