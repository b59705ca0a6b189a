// Section reading's scan over changes along a vector: specs/Along.antt. Theorems alone.
#![tactic(auto)]
