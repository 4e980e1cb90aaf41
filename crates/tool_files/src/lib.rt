//! Files by their paths: the machine's files, and files in memory; bounded reads, and a writer that
//! is not called again after it has failed.
#![tactic(auto)]

mod below;
mod boot_partition;
mod create;
mod files;
mod folder;
mod input;
mod lock;
mod machine;
mod memory_files;
mod program;
mod replace;
mod same_file;
mod until_failed;
mod writing;

pub use files::{Action, FileFault, Files, LIMIT, LockFault};
pub use input::{ReadFault, read_up_to};
pub use lock::{NotLocked, lock_at};
pub use machine::Machine;
pub use memory_files::{Call, MemoryFiles};
pub use program::{Note, Program};
pub use until_failed::UntilFailed;
