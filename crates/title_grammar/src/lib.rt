//! Grammars as languages of values, and readers with one letter of lookahead that read them exactly.
#![tactic(auto)]
