//! The names of transactions: otids, the names and the hashes that follow from them.
#![tactic(auto)]

pub use laws::{
    global_part_tells_transaction, numbers_read_back, same_name_same_tid, same_numbers_same_otid,
};
pub use name::{global_part, hash_of, name_of, own_hash};
pub use otid::{Otid, OtidFault, OwnNumbers, TID_LIMIT};

mod laws;
mod name;
mod otid;
