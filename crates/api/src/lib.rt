// The bench for programs in C and Rust. Each exported function is one direct call of the bench: it hands back the refusal's number and place in one
// number, 0 where it accepts, and lays the rest of its answer into lent slots. A refusal writes nowhere, and too few slots are refused by 10, after all
// else. hosts/bench.h says what stands in each slot. Calls on designs stand in `designs`, on readings alone in `totals`, on whole jobs in `jobs`, for
// deviations, Q and spread in `deviations`, on files in `files`, on files of the second edition in `second`, for certificates in `certificates`, for cards
// in `card_texts`, on blocks in groups in `grouped_sets`, on sheets in `checked_sheets`, for practice in `practising`, on several jobs in `pools`.
#![tactic(auto)]

mod card_texts;
mod certificates;
mod checked_sheets;
mod designs;
mod deviations;
mod files;
mod grouped_sets;
mod jobs;
mod pools;
mod practising;
mod second;
mod totals;
