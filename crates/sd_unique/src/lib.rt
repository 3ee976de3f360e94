//! Numbered nodes, found by their place and list: no two linked nodes have the same place and list.
//!
//! Each number has a record, the hash of its key while it is linked, and from `list_places` on links. A record
//! is free, linked or detached, and stands where its state says: `next` chains the free records and those of
//! each bucket, and the links `before` and `after` the linked ones of each place and the detached ones. The
//! numbers of the candidates for removal are a stack, and a flag for each number says whether it stands there.
//!
//! ```text
//! heads     [ free | bucket 0 | bucket 1 | .. ]           places  [ detached | 0 | 1 | .. | 2047 ]
//!               \       \ next                                        \ before, after
//! records   [ place start length next uses mark state ]   hashes  [ hash ]   links  [ before after ]
//!                    \
//! runs      [ .. | (2, 3) (4, 5) | .. ]
//!
//! candidates: the numbers  [ 4 0 | .. ]  and who waits  [ yes | no | no | no | yes | no | .. ]
//! ```
//!
//! A look-up reads a head, then the records of its bucket until one has the key, and of these the list
//! where place and length agree: it takes the length of the list and of the chain. `insert`, `relink`
//! and `take_run` take the length of the list, `unlink` and `retire` that of the chain, and `first_at`
//! goes along the list of the place's remainder. Before `list_places` there are no lists, and a call
//! pays a test for them: `places` has no heads, and `first_at` and `first_detached` go over all records.
//! `list_places` makes the links and the lists, a step for each record, once. `idle` takes candidates off the stack
//! until it finds one, each of them once for each time that it was put there; `retire` takes the node
//! off that `idle` just answered. In the midst of a large sweep, before lists of places are kept, `retire_twos`
//! does both in one loop, with the uses of the lists, until a node of another length is on top. The other calls
//! are a few loads and stores, but for `new`, which makes the heads.
//!
//! A sweep takes idle nodes until `idle` finds none, and ends there. In a table of more than 32,768 records it
//! may end with a pass that makes all chains anew: the linked records among the buckets, and the free numbers
//! in order, with the free runs of two elements, those from that of the newest node on first and then the
//! smallest. Nodes made behind it stand next to one another, in the order in which they are made, as those of
//! a new table do. It goes over the records, the hashes, the heads and the marks of the elements. It comes where
//! `retire` freed more than an eighth of the records since the last pass, or more than a 32nd, if more than an
//! eighth stood on the stack in this sweep. In that second case the chains of the buckets do not stand from
//! then on until the pass: `retire` and `unlink` take nothing out of them and are a few loads and stores too,
//! `find` goes over all records, and `insert` and `find_or_insert` begin with the pass. The buckets double where
//! the records are a quarter more, which chains all records too. No list is read: each hash is kept.
//!
//! A node of two elements has a record of 32 bytes, a hash of 4, a run of 16 with a mark of 1 for each element, a
//! flag of 1 and 3 to 6 of the buckets, and the stack has 4 for as many as ever stood there at once: 58 to 65
//! bytes, beside the room that vectors keep for growth. The links have 8 bytes more, and the heads of the lists
//! 8 KB, which are written at the first `list_places`: until then there is room for them, which takes addresses
//! alone.
#![tactic(auto)]

mod buckets;
mod chaining;
mod chains;
mod found;
mod hash;
mod listing;
mod lists;
mod nodes;
mod record;
mod room;
mod stack;
mod states;
mod sweeping;

pub use found::Found;
pub use nodes::Nodes;
