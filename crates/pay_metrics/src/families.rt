//! What is told of a service: each metric, by the field of a line of `STATS` that has its number.
ghost use Rattle.std.specs.Prelude.{◌≡◌, map};
ghost use Rattle.pay_metrics.specs.Families.{families, family_of};

/// A metric, with one number, or with one for each value of its label.
#[derive(Clone, Copy)]
pub(crate) struct Family {
    /// What its fields begin with: a name and `=`, or, where it has a label, a name and `_`, and behind that the label's value.
    pub field: &'static str,
    /// Its name.
    pub metric: &'static str,
    /// The name of its label, if it has one.
    pub label: Option<&'static str>,
    /// `counter`, of what only rises, or `gauge`.
    pub kind: &'static str,
    /// What its numbers count.
    pub help: &'static str,
}

/// All metrics, in the order of the line.
pub(crate) fn families() -> [Family; 17]
    ensures { map family_of result ≡ families }
{
    [
        Family {
            field: "seconds=",
            metric: "farebox_uptime_seconds",
            label: None,
            kind: "gauge",
            help: "Seconds for which lines have been answered.",
        },
        Family {
            field: "connections=",
            metric: "farebox_open_connections",
            label: None,
            kind: "gauge",
            help: "Connections that are open.",
        },
        Family {
            field: "connections_in_all=",
            metric: "farebox_connections_total",
            label: None,
            kind: "counter",
            help: "Connections that were taken.",
        },
        Family {
            field: "dropped=",
            metric: "farebox_dropped_connections_total",
            label: None,
            kind: "counter",
            help: "Connections that were dropped for want of room.",
        },
        Family {
            field: "lines=",
            metric: "farebox_lines_total",
            label: None,
            kind: "counter",
            help: "Lines that were answered.",
        },
        Family {
            field: "accepted=",
            metric: "farebox_accepted_total",
            label: None,
            kind: "counter",
            help: "Taps and corrections that were accepted.",
        },
        Family {
            field: "again=",
            metric: "farebox_again_total",
            label: None,
            kind: "counter",
            help: "Taps and corrections that had been accepted before.",
        },
        Family {
            field: "taps=",
            metric: "farebox_taps_total",
            label: None,
            kind: "counter",
            help: "Taps that were accepted.",
        },
        Family {
            field: "corrections=",
            metric: "farebox_corrections_total",
            label: None,
            kind: "counter",
            help: "Corrections that were accepted.",
        },
        Family {
            field: "refused_",
            metric: "farebox_refused_total",
            label: Some("refusal"),
            kind: "counter",
            help: "Lines that were refused, by the number of the refusal.",
        },
        Family {
            field: "journal_bytes=",
            metric: "farebox_journal_bytes",
            label: None,
            kind: "gauge",
            help: "Bytes of all journals.",
        },
        Family {
            field: "memory_bytes=",
            metric: "farebox_memory_bytes",
            label: None,
            kind: "gauge",
            help: "Bytes of the service's memory.",
        },
        Family {
            field: "accounts=",
            metric: "farebox_accounts",
            label: None,
            kind: "gauge",
            help: "Accounts that have accepted something.",
        },
        Family {
            field: "waiting_",
            metric: "farebox_waiting_commands",
            label: Some("shard"),
            kind: "gauge",
            help: "Commands that waited for a shard when it last took one.",
        },
        Family {
            field: "close_day=",
            metric: "farebox_last_close_day",
            label: None,
            kind: "gauge",
            help: "Service day of the last close, counted from 1970-01-01.",
        },
        Family {
            field: "close_postings=",
            metric: "farebox_last_close_postings",
            label: None,
            kind: "gauge",
            help: "Postings of the last close.",
        },
        Family {
            field: "close_seconds=",
            metric: "farebox_last_close_age_seconds",
            label: None,
            kind: "gauge",
            help: "Seconds since the last close.",
        },
    ]
}
