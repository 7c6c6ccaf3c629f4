//! Reports how much was lost while a run goes on, at most once a minute.
use crate::board::LossBoard;
use crate::pace::Pace;
use std::io::Write;

// The shortest time between two reports, in seconds.
const MINUTE: u64 = 60;

// Which losses were reported, and when the next report is due: at once if packets are sent again, and otherwise a
// minute after the first loss that was not reported, but at most once a minute.
#[derive(Clone, Copy, Debug, Default)]
pub(crate) struct Tidings {
    // How many lost packets the last report had, and whether packets were being lost then.
    told: u64,
    was_failing: bool,
    // The earliest time of the next report, in seconds.
    next: u64,
    // Since when there is something to report.
    since: Option<u64>,
}

impl Tidings {
    // Returns whether there is something to report.
    fn has_news(&self, board: &LossBoard) -> bool {
        self.told != board.lost_packets() || (self.was_failing && !board.is_failing())
    }

    // Returns in how many seconds the report is due.
    fn left(&mut self, board: &LossBoard, now: u64) -> u64 {
        let since = self.since.unwrap_or(now);
        self.since = Some(since);
        let due = if board.is_failing() {
            self.next.max(since.saturating_add(MINUTE))
        } else {
            self.next
        };
        due.saturating_sub(now)
    }

    // Writes the report. An error of `errors` is ignored.
    fn tell<E: Write>(&mut self, board: &LossBoard, now: u64, errors: &mut E) {
        let report = board.report();
        let _ = if board.is_failing() {
            writeln!(errors, "statsd_send: so far {report}")
        } else {
            writeln!(errors, "statsd_send: sending works again: so far {report}")
        };
        self.told = board.lost_packets();
        self.was_failing = board.is_failing();
        self.next = now.saturating_add(MINUTE);
        self.since = None;
    }

    // Reports what was lost, if a report is due. If it is due later, waits until then, or until there is more input.
    // Without a clock nothing is reported.
    pub(crate) fn follow<P: Pace, E: Write>(
        &mut self,
        board: &LossBoard,
        pace: &mut P,
        errors: &mut E,
    ) {
        if !self.has_news(board) {
            return;
        }
        let Some(now) = pace.seconds() else {
            return;
        };
        let left = self.left(board, now);
        if left > 0 {
            pace.wait(left);
        }
        let Some(now) = pace.seconds() else {
            return;
        };
        if self.left(board, now) == 0 {
            self.tell(board, now, errors);
        }
    }
}
