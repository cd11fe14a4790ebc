//! Tests of ports in memory, through public calls: a script is handed out step by step, bytes as far as there is
//! room, and what is given is kept.

mod given;
mod handed_out;
