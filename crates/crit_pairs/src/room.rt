use crate::PeakFault;
use crate::making::MadePair;

/// How many peaks more a table takes, and how many nodes of those whose results are built. It takes
/// more of these where other peaks come to it, so that it takes little longer than a list of peaks.
#[derive(Clone, Copy)]
pub(crate) struct Room {
    pub peaks: usize,
    pub nodes: u64,
}

impl Room {
    /// Room for all peaks.
    pub fn without_end() -> Room {
        Room {
            peaks: usize::MAX,
            nodes: u64::MAX,
        }
    }

    /// What is left behind one more peak, where those before it have so many nodes.
    pub fn after(self, made: &MadePair, before: u64) -> Result<Room, PeakFault> {
        if self.peaks == 0 {
            return Err(PeakFault::TooMany);
        }
        let peaks = self.peaks - 1;
        let more = made.nodes.saturating_sub(before);
        if !made.is_built {
            let nodes = self.nodes.saturating_add(more);
            return Ok(Room { peaks, nodes });
        }
        if self.nodes < more {
            return Err(PeakFault::TooMany);
        }
        let nodes = self.nodes - more;
        Ok(Room { peaks, nodes })
    }
}
