//! Words that the contracts of several crates share: counts of faults, causes of answers, bytes over bytes.
#![tactic(auto)]
