//! The library for C: lines, messages, boards, positions, the client and the directory, with the records that C sees.
//! Each function has the clauses of the one that it calls; include/fibs.h says what a caller has to see to.
#![tactic(auto)]

/// Does something with what a handle holds, which is taken out for it and then put back, and answers what that answers;
/// a handle that holds nothing is answered by `NO_HANDLE`.
macro_rules! with {
    ($kind:ident, $handle:ident, $alloc:ident, |$held:ident| $done:block) => {
        match $handle.take($alloc) {
            None => NO_HANDLE,
            Some(mut $held) => {
                let status = $done;
                *$handle = $kind::of($held);
                status
            }
        }
    };
}

mod asking;
mod board_lines;
mod boards;
mod client;
mod directory;
mod effects;
mod events;
mod feeding;
mod lines;
mod many_lines;
mod names;
mod ordering;
mod own_line;
mod player;
mod positions;
mod readings;
mod records;
mod saved;
mod turn;
mod words;

pub use feeding::Heard;
pub use lines::FedLine;
pub use many_lines::{Told, ToldLine};
pub use player::{PartRecord, PlayerRecord};
pub use saved::SavedRecord;
pub use turn::NextRecord;
