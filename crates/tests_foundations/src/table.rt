//! Random changes of a table of numbers beside a plain list.
use rand_core::utils::NextWord;
use rand_pcg::Pcg32;
use std::alloc::{AllocError, Global};
use tables::NumberTable;
use testkit_tables::{Outcome, Placed, check, check_number, pass};

const SCRIPTS: u64 = 8;

const CHANGES: usize = 60;

const PLACES: usize = 9;

const SEED: u64 = 0x7461_626c;

// Puts the value at the least number that is empty, and returns that number.
#[tactic(auto, using(tables::proofs::NumberTables::laws))]
fn put_least(table: &mut NumberTable<u32>, value: u32) -> Option<usize> {
    let number = table.least_free()?;
    table.put(number, value);
    Some(number)
}

// The plain list and the table have the same at each number, which is the row, and past the end.
fn check_same(table: &NumberTable<u32>, plain: &[Option<u32>]) -> Outcome {
    for number in 0..PLACES + 2 {
        let is_same = table.get(number).copied() == plain.get(number).copied().flatten();
        pass!(check(is_same, "the value of this number").in_row(number));
    }
    pass!(check_number(table.places() as u64, plain.len() as u64));
    check(
        table.least_free() == first_empty(plain),
        "the least free number",
    )
}

fn first_empty(plain: &[Option<u32>]) -> Option<usize> {
    plain.iter().position(|value| value.is_none())
}

fn put_in_both(table: &mut NumberTable<u32>, plain: &mut [Option<u32>], value: u32) -> bool {
    let number = put_least(table, value);
    let is_right = number == first_empty(plain);
    if let Some(slot) = plain.iter_mut().find(|slot| slot.is_none()) {
        *slot = Some(value);
    }
    is_right
}

fn put_at_in_both(
    table: &mut NumberTable<u32>,
    plain: &mut [Option<u32>],
    number: usize,
    value: u32,
) {
    if number < table.places() && table.get(number).is_none() {
        table.put(number, value);
        if let Some(slot) = plain.get_mut(number) {
            *slot = Some(value);
        }
    }
}

fn write_in_both(
    table: &mut NumberTable<u32>,
    plain: &mut [Option<u32>],
    number: usize,
    value: u32,
) {
    if let Some(held) = table.get_mut(number) {
        *held = value;
    }
    if let Some(Some(held)) = plain.get_mut(number) {
        *held = value;
    }
}

// Makes one random change of both; whether they answer the same.
fn change(table: &mut NumberTable<u32>, plain: &mut [Option<u32>], random: &mut Pcg32) -> bool {
    let number = random.next_word() as usize % (PLACES + 2);
    let value = random.next_word();
    match random.next_word() % 4 {
        0 => put_in_both(table, plain, value),
        1 => {
            put_at_in_both(table, plain, number, value);
            true
        }
        2 => {
            let removed = table.remove(number);
            removed == plain.get_mut(number).and_then(|slot| slot.take())
        }
        _ => {
            write_in_both(table, plain, number, value);
            true
        }
    }
}

// A table and a plain list agree, new and after each of a script's random changes.
fn check_script(table: &mut NumberTable<u32>, random: &mut Pcg32) -> Outcome {
    let mut plain = [None; PLACES];
    pass!(check_same(table, &plain));
    for step in 0..CHANGES {
        pass!(check(
            change(table, &mut plain, random),
            "the answer of this change",
        )
        .at_step(step));
        pass!(check_same(table, &plain).at_step(step));
    }
    Ok(())
}

fn check_new(alloc: Global, number: u64) -> Outcome {
    let mut random = Pcg32::new(SEED, number);
    let mut table = NumberTable::new(alloc, PLACES)?;
    check_script(&mut table, &mut random)
}

#[test]
fn agrees_with_a_plain_list(rt: HostRuntime) -> Outcome {
    for number in 0..SCRIPTS {
        pass!(check_new(rt.alloc(), number).in_script(SEED, number));
    }
    Ok(())
}
