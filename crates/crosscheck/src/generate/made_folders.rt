// Folders and their entries.
use super::choose::Theme;
use crate::contents::{Entry, Folder};
use crate::masks::has;
use crate::random::Random;
use std::alloc::{AllocError, Global};

const MOST_ENTRIES: u8 = 6;

const MOST_HIDDEN: u32 = 4;

const WIDEST: u8 = 3;

const TRIALS: u32 = 24;

/// So many folders, each over the one before it and the first over the sheets; with the count of the topmost rules.
pub(crate) fn make_folders(
    heap: Global,
    random: &mut Random,
    theme: &Theme,
    count: u32,
    sheets: u8,
) -> Result<(Vec<Folder>, u8), AllocError> {
    let mut folders = Vec::new(heap);
    let mut below = sheets;
    for _ in 0..count {
        let entries = random.byte_below(MOST_ENTRIES).wrapping_add(1);
        folders.push(make_folder(heap, random, theme, entries, below)?)?;
        below = entries;
    }
    Ok((folders, below))
}

fn make_folder(
    heap: Global,
    random: &mut Random,
    theme: &Theme,
    entries: u8,
    below: u8,
) -> Result<Folder, AllocError> {
    let mut folder = Vec::new(heap);
    for _ in 0..entries {
        folder.push(make_entry(random, theme, below))?;
    }
    Ok(folder)
}

// Where there is no rule below, a folder can only have entries that name none.
fn make_entry(random: &mut Random, theme: &Theme, below: u8) -> Entry {
    if below == 0 {
        return Entry::None;
    }
    let first = random.byte_below(below);
    let second = random.byte_below(below);
    match random.below(100) {
        0..=14 => Entry::Carry { rule: first },
        15..=33 => Entry::Product { first, second },
        34..=52 => Entry::Either { first, second },
        share => make_changed(random, theme, first, share),
    }
}

// An entry that changes what a rule allows, by what is left of the shares.
fn make_changed(random: &mut Random, theme: &Theme, rule: u8, share: u32) -> Entry {
    match share {
        ..=68 => make_selection(random, theme, rule),
        69..=84 => make_projection(random, theme, rule),
        85..=95 => Entry::Complement { rule },
        _ => Entry::None,
    }
}

fn make_projection(random: &mut Random, theme: &Theme, rule: u8) -> Entry {
    let count = random.below(MOST_HIDDEN.wrapping_add(1));
    let hidden = theme.options(random, count);
    Entry::Projection { rule, hidden }
}

// Mostly one that the theme's build has the same values in; a carry where no two ranges were found.
fn make_selection(random: &mut Random, theme: &Theme, rule: u8) -> Entry {
    let lenient = random.chance(20);
    for _ in 0..TRIALS {
        let width = random.byte_below(WIDEST).wrapping_add(1);
        let left = theme.option(random);
        let right = theme.option(random);
        let apart = left.abs_diff(right) >= width;
        let end = left.max(right).saturating_add(width);
        if apart && end <= theme.start.options && (lenient || agrees(theme, left, right, width)) {
            return Entry::Selection {
                rule,
                left,
                right,
                width,
            };
        }
    }
    Entry::Carry { rule }
}

fn agrees(theme: &Theme, left: u8, right: u8, width: u8) -> bool {
    for i in 0..width {
        let one = has(theme.sample, left.wrapping_add(i));
        let other = has(theme.sample, right.wrapping_add(i));
        if one != other {
            return false;
        }
    }
    true
}
