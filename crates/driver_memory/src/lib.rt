// Demand 3 in a driver's own memory: definitions and theorems about the calls of `driver_bench` and `driver_reads`, and no functions.
#![tactic(auto)]
