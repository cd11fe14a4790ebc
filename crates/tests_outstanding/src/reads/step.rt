//! A step of a random script.
use crate::draws::{below, bytes, capsule, change, io_queue, piece, rarely};
use crate::plain::{Head, admin_of, begin_h2c_data};
use crate::reads::script::{ENABLED, RESET, SHUT, Script};
use rand_core::utils::NextWord;
use rand_pcg::Pcg32;

/// How the steps of a script are drawn.
#[derive(Clone, Copy)]
pub struct Temper {
    /// Connections end, and hosts do wrong.
    pub is_rough: bool,
    /// All commands are of this queue.
    pub only: Option<usize>,
}

// What is done in a step.
enum Action {
    Submit,
    BringPiece,
    Edit,
    Disturb,
    Restore,
}

// What goes wrong for a queue.
enum Trouble {
    Reset,
    Shutdown,
    AdminGoes,
    AdminData,
    Terminates,
    Goes,
    Nothing,
}

/// A step, which is a command so many times of a hundred.
pub fn step(script: &mut Script, random: &mut Pcg32, temper: Temper, commands: u32) {
    match draw_action(random, temper.is_rough, commands) {
        Action::Submit => submit(script, random, temper),
        Action::BringPiece => bring_piece(script, random, temper.is_rough),
        Action::Edit => {
            let change = change(random, &script.plain.layout, temper.is_rough);
            script.edits(change);
        }
        Action::Disturb => disturb(script, random),
        Action::Restore => {
            let queue = io_queue(random);
            restore(script, random, queue);
        }
    }
}

fn draw_action(random: &mut Pcg32, is_rough: bool, commands: u32) -> Action {
    match below(random, 100) {
        choice if choice < commands => Action::Submit,
        0..=70 => Action::BringPiece,
        71..=91 => Action::Edit,
        92..=94 if is_rough => Action::Disturb,
        _ => Action::Restore,
    }
}

// The PDU comes whole, in two pieces, or for now in part.
fn deliver(script: &mut Script, random: &mut Pcg32, queue: usize) {
    if rarely(random, 2) {
        script.brings(queue, 0);
        return;
    }
    let len = random.next_word() as usize % script.pdu.len().max(1);
    script.begins(queue, len);
    if rarely(random, 2) {
        script.goes_on(queue);
    }
}

// A queue that is not connected, or whose controller is not ready, comes a step nearer to it.
fn restore(script: &mut Script, random: &mut Pcg32, queue: usize) {
    let admin = admin_of(queue);
    if !script.plain.is_connected(admin) {
        renew(script, admin);
    } else if script.plain.is_ready(queue) {
        renew(script, queue);
    } else if rarely(random, 3) {
        enable(script, admin);
    } else if rarely(random, 3) {
        renew(script, queue);
    }
}

// A connection that ended is given up, and one that is closed opens.
fn renew(script: &mut Script, queue: usize) {
    if script.plain.is_ended(queue) {
        script.gives_up(queue);
    } else if script.plain.is_closed(queue) {
        script.connects(queue);
    }
}

// A controller is enabled; one that was shut down is reset first.
fn enable(script: &mut Script, admin: usize) {
    let cc = if script.plain.controller(admin).is_enabled {
        RESET
    } else {
        ENABLED
    };
    script.configures(admin, cc);
}

// A queue, drawn again where it is full.
fn less_full(script: &Script, random: &mut Pcg32) -> usize {
    let queue = io_queue(random);
    if script.plain.is_full(queue) {
        io_queue(random)
    } else {
        queue
    }
}

// One more command of a queue.
fn submit(script: &mut Script, random: &mut Pcg32, temper: Temper) {
    let queue = match temper.only {
        Some(queue) => queue,
        None => less_full(script, random),
    };
    if !script.plain.is_connected(queue) {
        restore(script, random, queue);
    } else if script.has_begun(queue) {
        script.goes_on(queue);
    } else if script.plain.is_full(queue) && !(temper.is_rough && rarely(random, 12)) {
        bring_piece(script, random, temper.is_rough);
    } else {
        send_capsule(script, random, queue);
    }
}

fn send_capsule(script: &mut Script, random: &mut Pcg32, queue: usize) {
    script.pdu.clear();
    let made = capsule(&mut script.pdu, random, &script.plain, queue);
    script.makes(made);
    deliver(script, random, queue);
}

// More data for a command that waits.
fn bring_piece(script: &mut Script, random: &mut Pcg32, is_rough: bool) {
    let place = random.next_word() as usize % script.plain.transfers.len().max(1);
    let Some(queue) = script.plain.waits_on(place) else {
        return;
    };
    if script.has_begun(queue) {
        script.goes_on(queue);
    } else {
        let is_wrong = is_rough && rarely(random, 12);
        script.pdu.clear();
        let made = piece(&mut script.pdu, random, &script.plain, place, is_wrong);
        script.makes(made);
        deliver(script, random, queue);
    }
}

// A controller is reset or shut down, or a connection goes.
fn disturb(script: &mut Script, random: &mut Pcg32) {
    let queue = io_queue(random);
    let admin = admin_of(queue);
    match draw_trouble(script, random, queue) {
        Trouble::Reset => script.configures(admin, RESET),
        Trouble::Shutdown => script.configures(admin, SHUT),
        Trouble::AdminGoes => script.gives_up(admin),
        Trouble::AdminData => send_data(script, random, admin),
        Trouble::Terminates => script.terminates(queue),
        Trouble::Goes => script.gives_up(queue),
        Trouble::Nothing => restore(script, random, queue),
    }
}

fn draw_trouble(script: &Script, random: &mut Pcg32, queue: usize) -> Trouble {
    let is_connected = script.plain.is_connected(queue) && !script.has_begun(queue);
    let is_controlled = script.plain.is_connected(admin_of(queue));
    match below(random, 9) {
        0 if is_controlled => Trouble::Reset,
        1..=3 if is_controlled => Trouble::Shutdown,
        4 if is_controlled => Trouble::AdminGoes,
        5 if is_controlled => Trouble::AdminData,
        6 if is_connected => Trouble::Terminates,
        7 if is_connected => Trouble::Goes,
        _ => Trouble::Nothing,
    }
}

// Data that no command of the queue waits for.
fn send_data(script: &mut Script, random: &mut Pcg32, queue: usize) {
    let head = Head {
        cid: 3,
        ttag: 0,
        offset: 0,
        datal: 4,
        pdo: 24,
    };
    script.pdu.clear();
    let made = begin_h2c_data(&mut script.pdu, &head, 4);
    script.makes(made);
    let made = bytes(&mut script.pdu, random, 4);
    script.makes(made);
    script.brings(queue, 0);
}
