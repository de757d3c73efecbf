// Laws of the lists of operations that castribba_catch_up accepts.
#![tactic(auto)]
