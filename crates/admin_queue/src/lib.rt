//! The admin commands of a ready controller (Base 2.0, section 5): what each one comes to, by its opcode,
//! and the data that it returns; and what its host is to notice of edits: asynchronous events, the change counts of the
//! Asymmetric Namespace Access log page and the set of changed namespaces, as one value. It reads the views, the
//! configuration and the controller's own values as they are handed to it. No notice takes memory.
#![tactic(auto)]

pub mod commands;
pub mod controller;
mod event_request;
mod features;
mod identify;
pub mod laws;
pub mod log;
mod log_page;
pub mod notice_laws;
pub mod notices;
pub mod outcome;
pub mod pages;
pub mod payload;
pub mod planned;
pub mod update;
pub mod viewer;

pub use commands::admin;
pub use controller::AdminController;
pub use log::LogPage;
pub use notice_laws::notices_look_back;
pub use notices::Notices;
pub use outcome::{Accepted, Effect, Outcome, Success};
pub use pages::Pages;
pub use payload::{LogPagePart, Payload, Structure};
pub use planned::PlannedEdit;
pub use update::NoticeUpdate;
pub use viewer::Viewer;
