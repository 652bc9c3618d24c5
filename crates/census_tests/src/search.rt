//! The outcomes of positions of Kayles, beside those of a plain search.

use crate::answers::{check, code, dot};
use crate::ledgers::block;
use oct_period::Game;
use oct_period::Outcome::{NextLoses, NextWins};
use std::alloc::Allocator;
use std::process::Abort;

// Whether the player to move wins Kayles with so many heaps of 0 to 4 beans, by the moves alone. No game has more moves.
fn next_wins(heaps: [u32; 5], moves: u32) -> bool {
    if moves == 0 {
        return false;
    }
    for size in 1..5 {
        for removed in 1..3 {
            if heaps[size] == 0 || size < removed {
                continue;
            }
            let rest = size - removed;
            for left in 0..rest / 2 + 1 {
                let mut after = heaps;
                after[size] -= 1;
                after[left] = after[left].saturating_add(1);
                after[rest - left] = after[rest - left].saturating_add(1);
                if !next_wins(after, moves - 1) {
                    return true;
                }
            }
        }
    }
    false
}

// The outcome of each position of up to three heaps below 5 is that of the search.
fn are_found<A: Allocator + Copy>(rt: &impl Abort, game: &Game<A>) {
    for number in 0..125u64 {
        let heaps = [number % 5, number / 5 % 5, number / 25];
        let mut sizes = [0u32; 5];
        for count in 0..4 {
            let wins = next_wins(sizes, 12);
            let wanted = if wins { NextWins } else { NextLoses };
            let position = &heaps[..count];
            check(
                rt,
                game.outcome(position) == wanted,
                ("next wins", position, wins),
            );
            if count < 3 && heaps[count] < 5 {
                let size = heaps[count] as usize;
                sizes[size] = sizes[size].saturating_add(1);
            }
        }
    }
}

// That is so of the game that knows the heaps below 5.
#[test]
fn outcomes_are_those_of_a_plain_search(rt: HostRuntime) {
    let mut game = Game::new(rt.alloc(), code(&rt, "0.77"));
    let block = block(rt.alloc(), game.code(), 0, &[0, 1, 2, 3, 1]).expect(&rt, "a block");
    let added = game.add_block(dot(&rt, 1, 1), block);
    check(&rt, added.is_ok(), "the block is refused");
    are_found(&rt, &game);
}
