//! What an event ends beside the connection that it is a step of.
ghost use Rattle.std.specs.Prelude.{◌≡◌, ℕ, slice_index_or, false};
ghost use Rattle.std.specs.Option.{option_copied};
ghost use Rattle.target_history.specs.EndCause.{cause_decided, cause_edited, cause_lost, cause_replied, cause_updated};
ghost use Rattle.target_history.specs.EndCause.{ends_by, ends_controller, ends_role, ends_row, ends_row_at, ends_session};
ghost use Rattle.target_history.specs.EndCause.{ends_timer, is_barred, is_on_port, resets, runs_out};

use fabrics_connect::Row;
use nvt_config::{Config, Edit};
use property_regs::Change;
use target_decision::{
    ConfigurationSet, ConnectionState, Consequence, Controller, Decision, Role, Session, Update,
};

/// What an event ends: each cause that lies elsewhere than on the connection itself.
#[derive(Clone, Copy)]
pub enum EndCause {
    Nothing,
    /// An edit that deletes the port of this number: the connections and the controllers on it end, and
    /// each I/O controller whose host may no longer use its subsystem on its port.
    Port(u64),
    /// Another edit: each I/O controller ends whose host may no longer use its subsystem on its port.
    Permission,
    /// The admin connection of this controller is ended or given up: the controller ends.
    Controller(u16),
    /// The connection of this I/O queue is ended or given up: the queue leaves its controller.
    Queue { cntlid: u16, qid: u16 },
    /// This controller is reset: its I/O connections end.
    Reset(u16),
    /// The clock has come to this, in ms: each controller ends whose Keep Alive Timer has run out.
    Clock(u64),
}

impl EndCause {
    /// What an edit ends.
    pub fn of_edit(edit: &Edit) -> EndCause
        ensures { result ≡ cause_edited edit.now }
    {
        match edit {
            Edit::PortDel { id } => EndCause::Port(*id),
            Edit::SubsystemAdd { .. }
            | Edit::SubsystemSet { .. }
            | Edit::SubsystemDel { .. }
            | Edit::NamespaceAdd(_)
            | Edit::NamespaceSize { .. }
            | Edit::NamespaceGroup { .. }
            | Edit::NamespaceDel { .. }
            | Edit::NamespaceView { .. }
            | Edit::NamespaceShow { .. }
            | Edit::NamespaceHide { .. }
            | Edit::PortAdd(_)
            | Edit::PortSet(_)
            | Edit::LinkAdd { .. }
            | Edit::LinkDel { .. }
            | Edit::HostAdd { .. }
            | Edit::HostDel { .. }
            | Edit::AllowAdd { .. }
            | Edit::AllowDel { .. }
            | Edit::AnaSet { .. }
            | Edit::ReferralAdd(_)
            | Edit::ReferralSet(_)
            | Edit::ReferralDel { .. } => EndCause::Permission,
        }
    }

    /// What ends with a connection that has come so far and is ended or given up.
    pub fn of_loss(session: &Session) -> EndCause
        ensures { result ≡ cause_lost session.now }
    {
        match session {
            Session::Connected { role, .. } => match *role {
                Role::Admin { cntlid } => EndCause::Controller(cntlid),
                Role::Io { cntlid, qid } => EndCause::Queue { cntlid, qid },
            },
            Session::Opened | Session::Initialized | Session::Ended => EndCause::Nothing,
        }
    }

    /// What a decision in this session ends.
    pub fn of_decision(session: &Session, decision: &Decision) -> EndCause
        ensures { result ≡ cause_decided session.now decision.now }
    {
        match decision {
            Decision::Initialize(_)
            | Decision::Request(_)
            | Decision::Receive { .. }
            | Decision::Wait { .. } => { EndCause::Nothing }
            Decision::Reply(reply) => EndCause::of_consequence(&reply.consequence),
            Decision::Terminate(_) | Decision::Close => EndCause::of_loss(session),
        }
    }

    fn of_consequence(consequence: &Consequence) -> EndCause
        ensures { result ≡ cause_replied consequence.now }
    {
        match consequence {
            Consequence::Update { cntlid, update } => EndCause::of_update(*cntlid, update),
            Consequence::Nothing | Consequence::Begin(_) | Consequence::Join(_) =>
                EndCause::Nothing,
        }
    }

    fn of_update(cntlid: u16, update: &Update) -> EndCause
        ensures { result ≡ cause_updated update.now cntlid }
    {
        match update {
            Update::Configuration(ConfigurationSet { change, .. }) => match change {
                Change::Reset => EndCause::Reset(cntlid),
                Change::Enable | Change::Shutdown | Change::Stay => EndCause::Nothing,
            },
            Update::Command(_) => EndCause::Nothing,
        }
    }

    /// Whether it ends the controller of this identifier, where the configuration has become this.
    pub fn ends_controller(
        &self,
        config: &Config,
        cntlid: u16,
        row: Option<&Row>,
        controller: Option<&Controller>,
    ) -> bool
        ensures { result ≡ ends_controller self.now config.now cntlid
            (option_copied row.entry) (option_copied controller.entry) }
    {
        self.ends_row_at(config, cntlid, row) || self.ends_timer(controller)
    }

    fn ends_row_at(&self, config: &Config, cntlid: u16, row: Option<&Row>) -> bool
        ensures { result ≡ ends_row_at self.now config.now cntlid (option_copied row.entry) }
    {
        match row {
            Some(row) => self.ends_row(config, cntlid, row),
            None => false,
        }
    }

    fn ends_row(&self, config: &Config, cntlid: u16, row: &Row) -> bool
        ensures { result ≡ ends_row self.now config.now cntlid row.now }
    {
        match self {
            EndCause::Port(id) => *id == u64::from(row.port) || is_barred(config, row),
            EndCause::Permission => is_barred(config, row),
            EndCause::Controller(ended) => cntlid == *ended,
            EndCause::Nothing | EndCause::Queue { .. } | EndCause::Reset(_) | EndCause::Clock(_) =>
                false,
        }
    }

    fn ends_timer(&self, controller: Option<&Controller>) -> bool
        ensures { result ≡ ends_timer self.now (option_copied controller.entry) }
    {
        match (self, controller) {
            (EndCause::Clock(now), Some(controller)) => runs_out(*now, controller),
            (EndCause::Clock(_), None) => false,
            (
                EndCause::Nothing
                | EndCause::Port(_)
                | EndCause::Permission
                | EndCause::Controller(_)
                | EndCause::Queue { .. }
                | EndCause::Reset(_),
                _,
            ) => false,
        }
    }

    /// Whether it ends a connection that has come so far, where it ends these controllers, by their
    /// identifiers.
    pub fn ends(&self, ended: &[bool], connection: &ConnectionState) -> bool
        ensures { let gone = λ (c : ℕ). slice_index_or ended.now c false in
            result ≡ ends_by self.now gone connection.now }
    {
        self.is_on_port(connection.port) || self.ends_session(ended, &connection.session)
    }

    fn is_on_port(&self, port: u16) -> bool
        ensures { result ≡ is_on_port self.now port }
    {
        match self {
            EndCause::Port(id) => *id == u64::from(port),
            EndCause::Nothing
            | EndCause::Permission
            | EndCause::Controller(_)
            | EndCause::Queue { .. }
            | EndCause::Reset(_)
            | EndCause::Clock(_) => false,
        }
    }

    fn ends_session(&self, ended: &[bool], session: &Session) -> bool
        ensures { let gone = λ (c : ℕ). slice_index_or ended.now c false in
            result ≡ ends_session self.now gone session.now }
    {
        match session {
            Session::Connected { role, .. } => self.ends_role(ended, *role),
            Session::Opened | Session::Initialized | Session::Ended => false,
        }
    }

    fn ends_role(&self, ended: &[bool], role: Role) -> bool
        ensures { let gone = λ (c : ℕ). slice_index_or ended.now c false in
            result ≡ ends_role self.now gone role }
    {
        match role {
            Role::Admin { cntlid } => is_in(ended, cntlid),
            Role::Io { cntlid, .. } => is_in(ended, cntlid) || self.resets(cntlid),
        }
    }

    fn resets(&self, cntlid: u16) -> bool
        ensures { result ≡ resets self.now cntlid }
    {
        match self {
            EndCause::Reset(reset) => *reset == cntlid,
            EndCause::Nothing
            | EndCause::Port(_)
            | EndCause::Permission
            | EndCause::Controller(_)
            | EndCause::Queue { .. }
            | EndCause::Clock(_) => false,
        }
    }
}

fn is_in(ended: &[bool], cntlid: u16) -> bool
    ensures { result ≡ slice_index_or ended.now cntlid false }
{
    ended.get(usize::from(cntlid)).copied().unwrap_or(false)
}

fn is_barred(config: &Config, row: &Row) -> bool
    ensures { result ≡ is_barred config.now row.now.host row.now.subsystem row.now.port }
{
    match &row.subsystem {
        Some(nqn) => !config.may_use(row.host.as_bytes(), nqn.as_bytes(), row.port),
        None => false,
    }
}

// KATO counts in whole seconds, rounded up.
fn runs_out(now: u64, controller: &Controller) -> bool
    ensures { result ≡ runs_out now controller.now }
{
    let kato = u64::from(controller.kato).div_ceil(1_000) * 1_000;
    kato > 0 && now.saturating_sub(controller.mark) > kato
}
