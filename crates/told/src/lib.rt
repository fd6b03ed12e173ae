// The rounds and the report told by the numbers of sentences and sites, as the code keeps them: what the numbers say, and that they say what the definitions do.
#![tactic(auto)]
