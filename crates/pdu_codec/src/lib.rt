//! The PDUs of NVMe over TCP, between their bytes and typed values: readers lend from the slices that
//! they are given, writers append to a buffer with enough room. It checks no rule of the protocol and
//! cuts no stream: what a command means is for the crates above.
#![tactic(auto)]

pub mod append;
pub mod capsule_cmd;
pub mod capsule_resp;
pub mod command;
pub mod connect_data;
pub mod cqe;
pub mod data_head;
pub mod data_pdu;
pub mod h2c_data;
pub mod initialize;
pub mod laws;
pub mod r2t;
pub mod sgl;
pub mod sqe;
pub mod sqe_fields;
pub mod termination;

pub use append::Full;
pub use capsule_cmd::CapsuleCmd;
pub use capsule_resp::CapsuleResp;
pub use command::{BlockCommand, Connect, Feature, GetLogPage, Identify, Property};
pub use connect_data::{ConnectData, ConnectDataFields};
pub use cqe::{Cqe, status_of_word};
pub use data_head::DataHead;
pub use data_pdu::{C2hData, C2hHead};
pub use h2c_data::H2cData;
pub use initialize::{IcReq, IcResp};
pub use r2t::R2t;
pub use sgl::{Sgl, SglType};
pub use sqe::Sqe;
pub use sqe_fields::{DataSgl, SqeFields};
pub use termination::TermReq;
