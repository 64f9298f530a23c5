// Laws that know nothing of blinds or panels: choices by a test, tests that decide a statement, lists by their places and
// tests of whole lists.
// Nothing runs here.
#![tactic(auto)]
