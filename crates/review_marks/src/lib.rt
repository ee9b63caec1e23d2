// A theory: the starred cases of document 01 (specs/).
#![tactic(auto)]
