//! Random walks of a controller, good and bad, that a host's queue answers: beside it a plain program, which
//! says what each PDU tells, what goes back and what each call answers.

mod draw;
mod plain;
mod walk;
