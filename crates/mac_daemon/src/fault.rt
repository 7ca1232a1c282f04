//! Why a daemon can't begin, or can't go on.

use mac_pool::{DeskFault, PoolFault};
use mac_sockets::{PlaceFault, WaitFault};
use mac_system::HandedFault;
use std::alloc::AllocError;
use std::io;
use thiserror::Error;

/// Why a daemon can't begin, or can't go on.
#[derive(Debug, Drop, Error)]
pub enum DaemonFault {
    /// There is no socket at its path.
    #[error("{0}")]
    Place(PlaceFault),
    /// There is no second socket at its path.
    #[error("{0}")]
    Side(PlaceFault),
    /// A call of the system failed.
    #[error("the system refused a step: {0}")]
    System(io::Error),
    /// The socket that was handed over can't be served.
    #[error("{0}")]
    Handed(HandedFault),
    /// What it says can't be printed.
    #[error("standard output failed; give it a place where the first line can be written")]
    Output,
    /// The system gives no further thread.
    #[error("the system gives no further thread; raise the limit of processes, or that of memory")]
    NoThread,
    /// Memory ran out.
    #[error("memory ran out")]
    NoMemory,
}

impl From<AllocError> for DaemonFault {
    fn from(_refused: AllocError) -> DaemonFault {
        DaemonFault::NoMemory
    }
}

impl From<io::Error> for DaemonFault {
    fn from(refused: io::Error) -> DaemonFault {
        DaemonFault::System(refused)
    }
}

impl From<PlaceFault> for DaemonFault {
    fn from(refused: PlaceFault) -> DaemonFault {
        match refused {
            PlaceFault::NoMemory => DaemonFault::NoMemory,
            refused => DaemonFault::Place(refused),
        }
    }
}

impl From<HandedFault> for DaemonFault {
    fn from(refused: HandedFault) -> DaemonFault {
        match refused {
            HandedFault::NoMemory => DaemonFault::NoMemory,
            refused => DaemonFault::Handed(refused),
        }
    }
}

impl From<WaitFault> for DaemonFault {
    fn from(refused: WaitFault) -> DaemonFault {
        match refused {
            WaitFault::NoMemory => DaemonFault::NoMemory,
            WaitFault::System(refused) => DaemonFault::System(refused),
        }
    }
}

impl From<DeskFault> for DaemonFault {
    fn from(refused: DeskFault) -> DaemonFault {
        match refused {
            DeskFault::NoMemory => DaemonFault::NoMemory,
            DeskFault::AllOut => DaemonFault::NoThread,
        }
    }
}

impl From<PoolFault> for DaemonFault {
    fn from(refused: PoolFault) -> DaemonFault {
        match refused {
            PoolFault::NoMemory => DaemonFault::NoMemory,
            PoolFault::Count | PoolFault::NoThread => DaemonFault::NoThread,
        }
    }
}
