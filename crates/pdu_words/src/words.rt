//! The words of an explanation: one line with no end.
ghost use Rattle.std.specs.Prelude.{◌≡◌, ◌++◌, MatchOption, None, Some};
ghost use Rattle.std.specs.Fmt.{WritesOnOk};
ghost use Rattle.pdu_words.specs.Words.{answer_words, byte_words, command_words, connect_words};
ghost use Rattle.pdu_words.specs.Words.{completion_words, connect_answer_words, connect_result_words, content_words};
ghost use Rattle.pdu_words.specs.Words.{event_name, event_words_by, feature_words, kinds_words};
ghost use Rattle.pdu_words.specs.Words.{data_words, fatal_error_words, flag_words, ic_req_words};
ghost use Rattle.pdu_words.specs.Words.{ic_resp_words, identify_words_by, information_words};
ghost use Rattle.pdu_words.specs.Words.{log_page_words_by, named_words, numbered_words, place_words};
ghost use Rattle.pdu_words.specs.Words.{log_to_read, notice_words, succeeds};
ghost use Rattle.pdu_words.specs.Words.{property_words, r2t_words, result_words, retry_words, set_features_words};
ghost use Rattle.pdu_words.specs.Words.{status_words, termination_words, words_of};
ghost use Rattle.pdu_words.specs.Names.{identify_name, log_page_name};

use crate::command::Command;
use crate::explanation::{Explanation, ResponseFields};
use crate::names::{
    EVENT_CONFIGURATION, fatal_error_name, identify_name, log_page_name, notice_name,
    property_name, status_name,
};
use nvt_fields::Status;
use pdu_codec::{DataHead, IcReq, IcResp, R2t, TermReq};
use std::fmt::{self, Formatter};

impl fmt::Display for Explanation {
    ghost output = { λ explanation. Some (words_of explanation) };

    fn fmt<W: fmt::Write>(&self, f: &mut Formatter<W>) -> fmt::Result {
        match *self {
            Explanation::IcReq(request) => write_ic_req(f, request),
            Explanation::IcResp(response) => write_ic_resp(f, response),
            Explanation::H2cTermReq(request) => write_termination(f, "H2CTermReq", request),
            Explanation::C2hTermReq(request) => write_termination(f, "C2HTermReq", request),
            Explanation::CapsuleCmd { cid, command } => {
                let named = Named(command);
                write!(f, "CapsuleCmd CID {cid}{named}")
            }
            Explanation::CapsuleResp {
                completion,
                command,
            } => write_completion(f, completion, command),
            Explanation::H2cData { head, command } => {
                let (cid, ttag) = (head.cccid, head.ttag);
                let (moved, named) = (Data(head), Named(command));
                write!(f, "H2CData CID {cid} TTAG {ttag}{moved}{named}")
            }
            Explanation::C2hData { head, command } => {
                let cid = head.cccid;
                let (moved, content) = (Data(head), Content(command));
                write!(f, "C2HData CID {cid}{moved}{content}")
            }
            Explanation::R2t { request, command } => {
                let (asked, named) = (Asked(request), Named(command));
                write!(f, "{asked}{named}")
            }
            Explanation::NoPdu => f.write_str("no PDU"),
        }
    }
}

fn write_ic_req<W: fmt::Write>(f: &mut Formatter<W>, request: IcReq) -> fmt::Result
    ensures { WritesOnOk W.write_str_gives f.old result (ic_req_words request) f.new }
{
    let (pfv, hpda) = (request.pfv, request.hpda);
    let (dgst, maxr2t) = (request.dgst, request.maxr2t);
    write!(f, "ICReq PFV {pfv} HPDA {hpda} DGST {dgst} MAXR2T {maxr2t}")
}

fn write_ic_resp<W: fmt::Write>(f: &mut Formatter<W>, response: IcResp) -> fmt::Result
    ensures { WritesOnOk W.write_str_gives f.old result (ic_resp_words response) f.new }
{
    let (pfv, cpda, max) = (response.pfv, response.cpda, response.maxh2cdata);
    write!(f, "ICResp PFV {pfv} CPDA {cpda} MAXH2CDATA {max}")
}

fn write_termination<W: fmt::Write>(
    f: &mut Formatter<W>,
    name: &str,
    request: TermReq,
) -> fmt::Result
    ensures { WritesOnOk W.write_str_gives f.old result (termination_words name.now request) f.new }
{
    let (error, information) = (FatalError(request.fes), Information(request));
    write!(f, "{name}{error}{information}")
}

#[derive(Clone, Copy)]
struct FatalError(u16);

impl fmt::Display for FatalError {
    ghost output = { λ error. Some (fatal_error_words error.0) };

    fn fmt<W: fmt::Write>(&self, f: &mut Formatter<W>) -> fmt::Result {
        let fes = self.0;
        match fatal_error_name(fes) {
            Some(name) => write!(f, " {name}"),
            None => write!(f, " FES {fes}"),
        }
    }
}

// FEI is the offset of a field with an invalid header field and an unsupported parameter.
#[derive(Clone, Copy)]
struct Information(TermReq);

impl fmt::Display for Information {
    ghost output = { λ information. Some (information_words information.0) };

    fn fmt<W: fmt::Write>(&self, f: &mut Formatter<W>) -> fmt::Result {
        let (fes, fei) = (self.0.fes, self.0.fei);
        if fes == 1 || fes == 6 {
            return write!(f, ", at byte {fei}");
        }
        if fei == 0 {
            return Ok(());
        }
        write!(f, ", FEI {fei}")
    }
}

fn write_completion<W: fmt::Write>(
    f: &mut Formatter<W>,
    completion: ResponseFields,
    command: Option<Command>,
) -> fmt::Result
    ensures { WritesOnOk W.write_str_gives f.old result (completion_words completion command) f.new }
{
    let (cid, sqhd) = (completion.cid, completion.sqhd);
    let (status, retry) = (
        NamedStatus(completion.status),
        retry_words(completion.status),
    );
    let (answer, named) = (Answer(completion, command), Named(command));
    write!(
        f,
        "CapsuleResp CID {cid} SQHD {sqhd} {status}{retry}{answer}{named}"
    )
}

#[derive(Clone, Copy)]
struct NamedStatus(Status);

impl fmt::Display for NamedStatus {
    ghost output = { λ status. Some (status_words status.0) };

    fn fmt<W: fmt::Write>(&self, f: &mut Formatter<W>) -> fmt::Result {
        let (sct, code) = (self.0.sct, Byte(self.0.sc));
        match status_name(self.0) {
            Some(name) => f.write_str(name),
            None => write!(f, "SCT {sct} SC {code}"),
        }
    }
}

fn retry_words(status: Status) -> &'static str
    ensures { result.now ≡ retry_words status }
{
    if status.dnr {
        return ", DNR";
    }
    ""
}

// The result of a command.
#[derive(Clone, Copy)]
struct Answer(ResponseFields, Option<Command>);

impl fmt::Display for Answer {
    ghost output = { λ answer. Some (answer_words answer.0 answer.1) };

    fn fmt<W: fmt::Write>(&self, f: &mut Formatter<W>) -> fmt::Result {
        match self.1 {
            Some(Command::Connect { qid: _ }) => write_connect_result(f, self.0),
            Some(Command::AsynchronousEventRequest) => write_event(f, self.0),
            Some(Command::GetFeatures { fid, select }) => write_feature(f, self.0, fid, select),
            _ => write_result(f, self.0.result),
        }
    }
}

fn write_result<W: fmt::Write>(f: &mut Formatter<W>, dwords: u64) -> fmt::Result
    ensures { WritesOnOk W.write_str_gives f.old result (result_words dwords) f.new }
{
    if dwords == 0 {
        return Ok(());
    }
    write!(f, ", result {dwords:X}h")
}

// Whether a Connect's parameter that is invalid is in its data, by bit 16 of the result.
fn parameter_place(dwords: u64) -> &'static str
    ensures { result.now ≡ place_words dwords }
{
    if dwords / 0x1_0000 % 2 == 1 {
        return "data";
    }
    "command"
}

// The low 16 bits are the controller's identifier, or the offset of the parameter that is invalid
// (Base 2.0, section 6.3).
fn write_connect_result<W: fmt::Write>(
    f: &mut Formatter<W>,
    completion: ResponseFields,
) -> fmt::Result
    ensures { WritesOnOk W.write_str_gives f.old result (connect_result_words completion) f.new }
{
    let (sct, sc) = (completion.status.sct, completion.status.sc);
    let low = completion.result % 0x1_0000;
    if sct == 0 && sc == 0x00 {
        return write!(f, ", CNTLID {low}");
    }
    if sct == 1 && sc == 0x82 {
        let place = parameter_place(completion.result);
        return write!(f, ", at byte {low} of the {place}");
    }
    write_result(f, completion.result)
}

/// The words of a Connect's answer: its status, and the identifier of the controller or what was wrong.
#[derive(Clone, Copy)]
pub struct ConnectAnswer(pub ResponseFields);

impl fmt::Display for ConnectAnswer {
    ghost output = { λ answer. Some (connect_answer_words answer.0) };

    fn fmt<W: fmt::Write>(&self, f: &mut Formatter<W>) -> fmt::Result {
        let status = NamedStatus(self.0.status);
        write!(f, "{status}")?;
        write_connect_result(f, self.0)
    }
}

fn succeeds(status: Status) -> bool
    ensures { result ≡ succeeds status }
{
    status.sct == 0 && status.sc == 0x00
}

// The event that a request tells: type 2 is a notice.
#[tactic(auto, unfolding(crate::specs::Words::event_name))]
fn event_name(completion: ResponseFields) -> Option<&'static str>
    ensures { MatchOption result (event_name completion ≡ None) (λ name. event_name completion ≡ Some name.now) }
{
    if succeeds(completion.status) && completion.result % 8 == 2 {
        return notice_name(completion.result / 0x100 % 0x100);
    }
    None
}

#[tactic(auto, unfolding(crate::specs::Words::log_to_read))]
fn log_to_read(dwords: u64) -> u8
    ensures { result ≡ log_to_read dwords }
{
    (dwords / 0x1_0000 % 0x100) as u8
}

// .. and the log page that the host is to read.
fn write_event<W: fmt::Write>(f: &mut Formatter<W>, completion: ResponseFields) -> fmt::Result
    ensures { WritesOnOk W.write_str_gives f.old result
        (event_words_by (event_name completion) completion.result) f.new }
{
    match event_name(completion) {
        Some(name) => write_notice(f, name, log_to_read(completion.result)),
        None => write_result(f, completion.result),
    }
}

#[tactic(auto, unfolding(crate::specs::Words::notice_words))]
fn write_notice<W: fmt::Write>(f: &mut Formatter<W>, name: &str, log: u8) -> fmt::Result
    ensures { WritesOnOk W.write_str_gives f.old result (notice_words name.now log) f.new }
{
    let log = Byte(log);
    write!(f, ", {name}, read log {log}")
}

// Select 0 to 2 ask for a value.
fn write_feature<W: fmt::Write>(
    f: &mut Formatter<W>,
    completion: ResponseFields,
    fid: u8,
    select: u8,
) -> fmt::Result
    ensures { WritesOnOk W.write_str_gives f.old result (feature_words completion fid select) f.new }
{
    if succeeds(completion.status) && fid == EVENT_CONFIGURATION && select < 3 {
        let kinds = kinds_words(completion.result);
        return write!(f, ", {kinds}");
    }
    write_result(f, completion.result)
}

// The kinds that Asynchronous Event Configuration enables (Base 2.0, section 5.27.1.8).
fn kinds_words(value: u64) -> &'static str
    ensures { result.now ≡ kinds_words value }
{
    let namespaces = value / 0x100 % 2 == 1;
    let ana = value / 0x800 % 2 == 1;
    let discovery = value / 0x8000_0000 % 2 == 1;
    match (namespaces, ana, discovery) {
        (false, false, false) => "no events",
        (true, false, false) => "events of namespaces",
        (false, true, false) => "events of ANA",
        (true, true, false) => "events of namespaces, ANA",
        (false, false, true) => "events of discovery",
        (true, false, true) => "events of namespaces, discovery",
        (false, true, true) => "events of ANA, discovery",
        (true, true, true) => "events of namespaces, ANA, discovery",
    }
}

// Where the data of a PDU stand, and how many they are.
#[derive(Clone, Copy)]
struct Data(DataHead);

impl fmt::Display for Data {
    ghost output = { λ moved. Some (data_words moved.0) };

    fn fmt<W: fmt::Write>(&self, f: &mut Formatter<W>) -> fmt::Result {
        let (offset, len) = (self.0.datao, self.0.datal);
        let flags = data_flags(self.0);
        write!(f, " offset {offset} length {len}{flags}")
    }
}

fn data_flags(head: DataHead) -> &'static str
    ensures { result.now ≡ flag_words head }
{
    match (head.last_pdu, head.success) {
        (false, false) => "",
        (true, false) => ", last",
        (false, true) => ", success",
        (true, true) => ", last, success",
    }
}

#[derive(Clone, Copy)]
struct Asked(R2t);

impl fmt::Display for Asked {
    ghost output = { λ asked. Some (r2t_words asked.0) };

    fn fmt<W: fmt::Write>(&self, f: &mut Formatter<W>) -> fmt::Result {
        let (cid, ttag) = (self.0.cccid, self.0.ttag);
        let (offset, len) = (self.0.r2to, self.0.r2tl);
        write!(f, "R2T CID {cid} TTAG {ttag} offset {offset} length {len}")
    }
}

// The command that a PDU belongs to, where it is known.
#[derive(Clone, Copy)]
struct Named(Option<Command>);

impl fmt::Display for Named {
    ghost output = { λ named. Some (named_words named.0) };

    fn fmt<W: fmt::Write>(&self, f: &mut Formatter<W>) -> fmt::Result {
        match self.0 {
            Some(command) => write!(f, " ({command})"),
            None => Ok(()),
        }
    }
}

// What the data that a command returns are.
#[derive(Clone, Copy)]
struct Content(Option<Command>);

impl fmt::Display for Content {
    ghost output = { λ content. Some (content_words content.0) };

    fn fmt<W: fmt::Write>(&self, f: &mut Formatter<W>) -> fmt::Result {
        match self.0 {
            Some(Command::GetLogPage { lid, offset }) => write_log_page(f, lid, offset),
            Some(Command::Identify { cns }) => write_structure(f, cns),
            command => {
                let named = Named(command);
                write!(f, "{named}")
            }
        }
    }
}

fn write_log_page<W: fmt::Write>(f: &mut Formatter<W>, lid: u8, offset: u64) -> fmt::Result
    ensures { WritesOnOk W.write_str_gives f.old result
        (log_page_words_by (log_page_name lid) lid offset) f.new }
{
    let number = Byte(lid);
    match log_page_name(lid) {
        Some(name) => write!(f, " (Get Log Page: {name}, offset {offset})"),
        None => write!(f, " (Get Log Page {number}, offset {offset})"),
    }
}

fn write_structure<W: fmt::Write>(f: &mut Formatter<W>, cns: u8) -> fmt::Result
    ensures { WritesOnOk W.write_str_gives f.old result
        (identify_words_by (identify_name cns) cns) f.new }
{
    let command = Command::Identify { cns };
    match identify_name(cns) {
        Some(name) => write!(f, " ({name})"),
        None => write!(f, " ({command})"),
    }
}

impl fmt::Display for Command {
    ghost output = { λ command. Some (command_words command) };

    fn fmt<W: fmt::Write>(&self, f: &mut Formatter<W>) -> fmt::Result {
        match *self {
            Command::Connect { qid } => write_connect(f, qid),
            Command::PropertyGet { offset } => {
                let property = Property(offset);
                write!(f, "Property Get {property}")
            }
            Command::PropertySet { offset, value: _ } => {
                let property = Property(offset);
                write!(f, "Property Set {property}")
            }
            Command::Fabrics { fctype } => write_numbered(f, "Fabrics command", fctype),
            Command::GetLogPage { lid, offset: _ } => write_numbered(f, "Get Log Page", lid),
            Command::Identify { cns } => write_numbered(f, "Identify", cns),
            Command::SetFeatures { fid, value } => write_set_features(f, fid, value),
            Command::GetFeatures { fid, select: _ } => write_numbered(f, "Get Features", fid),
            Command::Admin { opcode } => write_numbered(f, "admin command", opcode),
            Command::Io { opcode } => write_numbered(f, "I/O command", opcode),
            Command::Abort => f.write_str("Abort"),
            Command::AsynchronousEventRequest => f.write_str("Asynchronous Event Request"),
            Command::KeepAlive => f.write_str("Keep Alive"),
            Command::Flush => f.write_str("Flush"),
            Command::Write => f.write_str("Write"),
            Command::Read => f.write_str("Read"),
            Command::Compare => f.write_str("Compare"),
            Command::WriteZeroes => f.write_str("Write Zeroes"),
        }
    }
}

fn write_connect<W: fmt::Write>(f: &mut Formatter<W>, qid: u16) -> fmt::Result
    ensures { WritesOnOk W.write_str_gives f.old result (connect_words qid) f.new }
{
    if qid == 0 {
        return f.write_str("Connect");
    }
    write!(f, "Connect QID {qid}")
}

fn write_set_features<W: fmt::Write>(f: &mut Formatter<W>, fid: u8, value: u32) -> fmt::Result
    ensures { WritesOnOk W.write_str_gives f.old result (set_features_words fid value) f.new }
{
    if fid == EVENT_CONFIGURATION {
        let kinds = kinds_words(u64::from(value));
        return write!(f, "Set Features 0Bh: {kinds}");
    }
    write_numbered(f, "Set Features", fid)
}

// A property, by its offset.
#[derive(Clone, Copy)]
struct Property(u32);

impl fmt::Display for Property {
    ghost output = { λ property. Some (property_words property.0) };

    fn fmt<W: fmt::Write>(&self, f: &mut Formatter<W>) -> fmt::Result {
        let offset = self.0;
        match property_name(offset) {
            Some(name) => f.write_str(name),
            None => write!(f, "{offset:X}h"),
        }
    }
}

fn write_numbered<W: fmt::Write>(f: &mut Formatter<W>, name: &str, number: u8) -> fmt::Result
    ensures { WritesOnOk W.write_str_gives f.old result (numbered_words name.now number) f.new }
{
    let number = Byte(number);
    write!(f, "{name} {number}")
}

// A byte in two hex digits, with an `h` behind them.
#[derive(Clone, Copy)]
struct Byte(u8);

impl fmt::Display for Byte {
    ghost output = { λ byte. Some (byte_words byte.0) };

    fn fmt<W: fmt::Write>(&self, f: &mut Formatter<W>) -> fmt::Result {
        let (high, low) = (self.0 / 16, self.0 % 16);
        write!(f, "{high:X}{low:X}h")
    }
}
