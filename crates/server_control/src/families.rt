//! The table of metrics.

/// A metric family, in the words of Prometheus' text-based format.
#[derive(Clone, Copy)]
pub struct Family {
    /// The name of the metric.
    pub name: &'static str,
    /// Its help text.
    pub help: &'static str,
    /// `counter`, `gauge` or `histogram`.
    pub kind: &'static str,
}

/// The numbers of a family, which are adjacent.
pub(crate) struct Rows {
    pub(crate) family: Family,
    /// The index of the first.
    pub(crate) first: usize,
    /// What follows the name in the line of each: which part of a histogram it is, and its labels.
    pub(crate) ends: &'static [&'static str],
}

/// The open connections.
pub(crate) const CONNECTIONS: Family = Family {
    name: "ruffletuff_connections",
    help: "connections that are open",
    kind: "gauge",
};

/// Each operator's vehicles.
pub(crate) const VEHICLES: Family = Family {
    name: "ruffletuff_vehicles",
    help: "vehicles of each operator",
    kind: "gauge",
};

/// The upper bounds of the buckets in milliseconds, inclusive. The last one counts all.
pub(crate) const BOUNDS: &[u64] = &[5, 10, 25, 100, 250, 1000, u64::MAX];

/// The index of the first bucket. The sum and the count follow the buckets.
pub(crate) const FIRST_BUCKET: usize = 13;

pub(crate) const SUM: usize = 20;

pub(crate) const COUNT: usize = 21;

/// How many numbers there are.
pub(crate) const PLACES: usize = 22;

/// The numbers that are counted here, in the order of their lines.
pub(crate) const ROWS: &[Rows] = &[
    Rows {
        family: Family {
            name: "ruffletuff_requests_total",
            help: "requests answered, by kind and class of status",
            kind: "counter",
        },
        first: 0,
        ends: &[
            "{call=\"read\",status=\"2xx\"}",
            "{call=\"read\",status=\"4xx\"}",
            "{call=\"read\",status=\"5xx\"}",
            "{call=\"change\",status=\"2xx\"}",
            "{call=\"change\",status=\"4xx\"}",
            "{call=\"change\",status=\"5xx\"}",
            "{call=\"publish\",status=\"2xx\"}",
            "{call=\"publish\",status=\"4xx\"}",
            "{call=\"publish\",status=\"5xx\"}",
        ],
    },
    Rows {
        family: Family {
            name: "ruffletuff_journal_bytes",
            help: "bytes of the journal",
            kind: "gauge",
        },
        first: 9,
        ends: &[""],
    },
    Rows {
        family: Family {
            name: "ruffletuff_syncs_total",
            help: "how often the journal was synced",
            kind: "counter",
        },
        first: 10,
        ends: &[""],
    },
    Rows {
        family: Family {
            name: "ruffletuff_pending_replies",
            help: "replies on their way: asked for, not yet told",
            kind: "gauge",
        },
        first: 11,
        ends: &[""],
    },
    Rows {
        family: Family {
            name: "ruffletuff_revision",
            help: "publications: those in the journal at the start, and those told since",
            kind: "gauge",
        },
        first: 12,
        ends: &[""],
    },
    Rows {
        family: Family {
            name: "ruffletuff_answer_milliseconds",
            help: "milliseconds from when a request's turn came to its answer",
            kind: "histogram",
        },
        first: FIRST_BUCKET,
        ends: &[
            "_bucket{le=\"5\"}",
            "_bucket{le=\"10\"}",
            "_bucket{le=\"25\"}",
            "_bucket{le=\"100\"}",
            "_bucket{le=\"250\"}",
            "_bucket{le=\"1000\"}",
            "_bucket{le=\"+Inf\"}",
            "_sum",
            "_count",
        ],
    },
];
