//! The worked rows of the rules, as lines and their replies: what each question does to a pack, and what is answered afterwards.

/// 1 January 2026, 00:00:00 UTC.
pub const NEW_YEAR: i64 = 1_767_225_600;

const DAY: i64 = 86_400;

/// A session: its subject, the moments of its lines, and each line with its reply, here without its last LF. The last
/// moment serves all later lines.
pub struct Example {
    pub shows: &'static str,
    pub moments: &'static [i64],
    pub lines: &'static [(&'static str, &'static str)],
}

/// The replies to verifications.
pub const VERIFICATIONS: &[Example] = &[
    Example {
        shows: "a pack is uploaded and verified",
        moments: &[NEW_YEAR],
        lines: &[
            ("mah1 UPLOAD 09506000134352 SN1 B1 280200", "UPLOADED"),
            ("ph1 VERIFY 09506000134352 SN1", "AUTHENTIC B1 280200 VALID"),
            ("ph1 VERIFY 09506000134352 SN1", "AUTHENTIC B1 280200 VALID"),
            ("QUIT", "BYE"),
        ],
    },
    Example {
        shows: "alerts on an unknown pack are numbered and its status raises none",
        moments: &[NEW_YEAR],
        lines: &[
            ("ph1 VERIFY 09506000134352 SN1", "ALERT UNKNOWN FLAGGED 1"),
            ("ph1 VERIFY 09506000134352 SN1", "ALERT UNKNOWN FLAGGED 2"),
            ("ph1 STATUS 09506000134352 SN1", "NOPACK"),
        ],
    },
    Example {
        shows: "a wrong check digit is no product code",
        moments: &[NEW_YEAR],
        lines: &[("ph1 VERIFY 09506000134353 SN1", "FAULT CODE")],
    },
    Example {
        shows: "a pack expires after its last day",
        // 29 February 2028, one second before and at midnight
        moments: &[NEW_YEAR, 1_835_481_599, 1_835_481_600],
        lines: &[
            ("mah1 UPLOAD 09506000134352 SN1 B1 280200", "UPLOADED"),
            ("ph1 VERIFY 09506000134352 SN1", "AUTHENTIC B1 280200 VALID"),
            (
                "ph1 VERIFY 09506000134352 SN1",
                "AUTHENTIC B1 280200 EXPIRED",
            ),
        ],
    },
];

/// Uploads, supplies and reversions.
pub const OPERATIONS: &[Example] = &[
    Example {
        shows: "an upload is refused to other holders and other roles",
        moments: &[NEW_YEAR],
        lines: &[
            ("mah1 UPLOAD 09506000134352 SN1 B1 280200", "UPLOADED"),
            (
                "mah1 UPLOAD 09506000134352 SN1 B1 280200",
                "REFUSED 5 DUPLICATE",
            ),
            (
                "mah2 UPLOAD 09506000134352 SN1 B1 280200",
                "REFUSED 4 NOT_HOLDER",
            ),
            ("ph1 UPLOAD 09506000134352 SN1 B1 280200", "REFUSED 1 ROLE"),
        ],
    },
    Example {
        shows: "a supplied pack is not supplied again",
        moments: &[NEW_YEAR],
        lines: &[
            ("mah1 UPLOAD 09506000134352 SN1 B1 280200", "UPLOADED"),
            ("wh1 SUPPLY 09506000134352 SN1", "REFUSED 1 ROLE"),
            ("ph1 SUPPLY 09506000134352 SN1", "DECOMMISSIONED"),
            ("ph1 SUPPLY 09506000134352 SN1", "ALERT SUPPLIED FLAGGED 1"),
            ("ph1 REVERT 09506000134352 SN1", "REFUSED 11 WAS_SUPPLIED"),
        ],
    },
    Example {
        shows: "a held pack is reverted on the tenth day",
        moments: &[NEW_YEAR, NEW_YEAR, NEW_YEAR + 10 * DAY],
        lines: &[
            ("mah1 UPLOAD 09506000134352 SN1 B1 280200", "UPLOADED"),
            ("ph1 HOLD 09506000134352 SN1", "DECOMMISSIONED"),
            ("ph1b REVERT 09506000134352 SN1", "REVERTED"),
            ("ph1b REVERT 09506000134352 SN1", "REFUSED 8 STILL_ACTIVE"),
        ],
    },
    Example {
        shows: "a held pack is not reverted on the eleventh day",
        moments: &[NEW_YEAR, NEW_YEAR, NEW_YEAR + 11 * DAY],
        lines: &[
            ("mah1 UPLOAD 09506000134352 SN1 B1 280200", "UPLOADED"),
            ("ph1 HOLD 09506000134352 SN1", "DECOMMISSIONED"),
            ("ph1b REVERT 09506000134352 SN1", "REFUSED 13 LATE"),
        ],
    },
    Example {
        shows: "a reversion by others late or of an expired pack is refused in this order",
        moments: &[
            NEW_YEAR,
            NEW_YEAR,
            NEW_YEAR + 11 * DAY,
            NEW_YEAR + 6 * DAY,
            NEW_YEAR + 4 * DAY,
        ],
        lines: &[
            ("mah1 UPLOAD 09506000134352 SN8 B8 260105", "UPLOADED"),
            ("ph1 HOLD 09506000134352 SN8", "DECOMMISSIONED"),
            ("ph2 REVERT 09506000134352 SN8", "REFUSED 12 OTHER"),
            ("ph1 REVERT 09506000134352 SN8", "REFUSED 14 EXPIRED"),
            ("ph1 REVERT 09506000134352 SN8", "REVERTED"),
        ],
    },
];

/// Recalls, and the reports of product codes.
pub const RECALLS: &[Example] = &[
    Example {
        shows: "a recall binds a held pack",
        moments: &[NEW_YEAR],
        lines: &[
            ("mah1 UPLOAD 09506000134352 SN1 B1 280200", "UPLOADED"),
            ("ph1 HOLD 09506000134352 SN1", "DECOMMISSIONED"),
            ("mah1 RECALL 09506000134352 B1", "LOCKED 0"),
            ("ph1 REVERT 09506000134352 SN1", "REFUSED 7 LOCKED"),
            (
                "ph1 VERIFY 09506000134352 SN1",
                "ALERT RECALLED UNFLAGGED 1",
            ),
            (
                "au1 STATUS 09506000134352 SN1",
                "STATUS HELD RECALLED DISPOSAL B1 280200",
            ),
        ],
    },
    Example {
        shows: "a recall binds packs uploaded later",
        moments: &[NEW_YEAR],
        lines: &[
            ("mah1 UPLOAD 09506000134352 SN1 B1 280200", "UPLOADED"),
            ("mah1 RECALL 09506000134352 B9", "REFUSED 3 UNKNOWN_BATCH"),
            ("mah1 RECALL 09506000134352 B1", "LOCKED 1"),
            ("mah1 UPLOAD 09506000134352 SN2 B1 280200", "UPLOADED"),
            (
                "ph1 VERIFY 09506000134352 SN2",
                "ALERT RECALLED UNFLAGGED 1",
            ),
            ("mah1 RECALL 09506000134352 B1", "REFUSED 6 ALREADY"),
            ("mah1 WITHDRAW 09506000134352 B1", "REFUSED 6 ALREADY"),
            ("mah2 RECALL 09506000134352 B1", "REFUSED 4 NOT_HOLDER"),
        ],
    },
    Example {
        shows: "an authority gets the report of a product code",
        moments: &[NEW_YEAR],
        lines: &[
            ("mah1 UPLOAD 09506000134352 SN1 B1 280200", "UPLOADED"),
            ("mah1 UPLOAD 09506000134352 SN2 B1 280200", "UPLOADED"),
            ("mah1 UPLOAD 09506000134352 SN3 B1 280200", "UPLOADED"),
            ("ph1 SUPPLY 09506000134352 SN1", "DECOMMISSIONED"),
            ("mah1 THEFT 09506000134352 SN2", "STOLEN"),
            ("mah1 RECALL 09506000134352 B1", "LOCKED 1"),
            (
                "au1 REPORT 09506000134352",
                "PRODUCT 09506000134352 HOLDER MAH-1 ALERTS 0 FLAGGED 0\n\
                BATCH B1 RECALLED ACTIVE 1 HELD 0 SUPPLIED 1 EXPORTED 0 SAMPLED 0 DESTROYED 0 STOLEN 1\n\
                END",
            ),
            ("ph1 REPORT 09506000134352", "FAULT ROLE"),
            ("zed REPORT 09506000134352", "FAULT NOBODY"),
            (
                "au1 AUDIT 09506000134352 SN3",
                r#"SHOWN 1
[2,1767225600,"mah1","HOLDER","MAH-1","HQ",["UPLOAD","09506000134352","SN3","B1","280200"],["UPLOADED"]]"#,
            ),
        ],
    },
    Example {
        shows: "of a product code that nobody named there is nothing to report",
        moments: &[NEW_YEAR],
        lines: &[(
            "au1 REPORT 04012345678901",
            "PRODUCT 04012345678901 HOLDER - ALERTS 0 FLAGGED 0\nEND",
        )],
    },
];

/// Thefts, clocks, limits and audits.
pub const EVENTS: &[Example] = &[
    Example {
        shows: "a destroyed pack can be reported stolen",
        moments: &[NEW_YEAR],
        lines: &[
            ("mah1 UPLOAD 09506000134352 SN1 B1 280200", "UPLOADED"),
            ("wh1 DESTROY 09506000134352 SN1", "DECOMMISSIONED"),
            (
                "wh1 VERIFY 09506000134352 SN1",
                "ALERT DESTROYED UNFLAGGED 1",
            ),
            ("wh1 REVERT 09506000134352 SN1", "REFUSED 10 IS_DESTROYED"),
            ("mah1 THEFT 09506000134352 SN1", "STOLEN"),
            ("wh1 VERIFY 09506000134352 SN1", "ALERT STOLEN FLAGGED 2"),
            ("mah1 THEFT 09506000134352 SN1", "REFUSED 6 ALREADY"),
            ("wh1 REVERT 09506000134352 SN1", "REFUSED 9 IS_STOLEN"),
        ],
    },
    Example {
        shows: "a clock that was set back does not hinder a reversion",
        // 20 days before the decommissioning
        moments: &[NEW_YEAR, NEW_YEAR, 1_765_497_600],
        lines: &[
            ("mah1 UPLOAD 09506000134352 SN1 B1 280200", "UPLOADED"),
            ("ph1 HOLD 09506000134352 SN1", "DECOMMISSIONED"),
            ("ph1 REVERT 09506000134352 SN1", "REVERTED"),
        ],
    },
    Example {
        shows: "serials have at most 20 characters and lines 200",
        moments: &[NEW_YEAR],
        lines: &[
            (
                "mah1 UPLOAD 09506000134352 ABC/DEF%GHI/JKL%MN12 B1 280200",
                "UPLOADED",
            ),
            (
                "mah1 UPLOAD 09506000134352 ABC/DEF%GHI/JKL%MN123 B1 280200",
                "FAULT SERIAL",
            ),
            (
                "AAAAAAAAAAAAAAAAAAAAAAAAAAAAAAAAAAAAAAAAAAAAAAAAAAAAAAAAAAAAAAAAAAAAAAAAAAAAAAAAAAAAAAAAAAAAAAAAAAAAAAAAAAAAAAAAAAAAAAAAAAAAAAAAAAAAAAAAAAAAAAAAAAAAAAAAAAAAAAAAAAAAAAAAAAAAAAAAAAAAAAAAAAAAAAAAAAAAAAAAA",
                "FAULT LONG",
            ),
            (
                "AAAAAAAAAAAAAAAAAAAAAAAAAAAAAAAAAAAAAAAAAAAAAAAAAAAAAAAAAAAAAAAAAAAAAAAAAAAAAAAAAAAAAAAAAAAAAAAAAAAAAAAAAAAAAAAAAAAAAAAAAAAAAAAAAAAAAAAAAAAAAAAAAAAAAAAAAAAAAAAAAAAAAAAAAAAAAAAAAAAAAAAAAAAAAAAAAAAAAAAA",
                "FAULT FIELDS",
            ),
            (
                "ph1 VERIFY 09506000134352 ABC/DEF%GHI/JKL%MN12",
                "AUTHENTIC B1 280200 VALID",
            ),
        ],
    },
    Example {
        shows: "an audit shows the entries about a pack and is one of them from then on",
        moments: &[NEW_YEAR],
        lines: &[
            ("mah1 UPLOAD 09506000134352 SN1 B1 280200", "UPLOADED"),
            ("ph1 VERIFY 09506000134352 SN1", "AUTHENTIC B1 280200 VALID"),
            ("ph1 HOLD 09506000134352 SN1", "DECOMMISSIONED"),
            ("ph1b REVERT 09506000134352 SN1", "REVERTED"),
            (
                "au1 AUDIT 09506000134352 SN1",
                r#"SHOWN 4
[2,1767225600,"mah1","HOLDER","MAH-1","HQ",["UPLOAD","09506000134352","SN1","B1","280200"],["UPLOADED"]]
[2,1767225600,"ph1","PHARMACY","PH-1","P1",["VERIFY","09506000134352","SN1"],["AUTHENTIC","B1","280200","VALID"]]
[2,1767225600,"ph1","PHARMACY","PH-1","P1",["HOLD","09506000134352","SN1"],["DECOMMISSIONED"]]
[2,1767225600,"ph1b","PHARMACY","PH-1","P1",["REVERT","09506000134352","SN1"],["REVERTED"]]"#,
            ),
            (
                "au1 AUDIT 09506000134352 SN1",
                r#"SHOWN 5
[2,1767225600,"mah1","HOLDER","MAH-1","HQ",["UPLOAD","09506000134352","SN1","B1","280200"],["UPLOADED"]]
[2,1767225600,"ph1","PHARMACY","PH-1","P1",["VERIFY","09506000134352","SN1"],["AUTHENTIC","B1","280200","VALID"]]
[2,1767225600,"ph1","PHARMACY","PH-1","P1",["HOLD","09506000134352","SN1"],["DECOMMISSIONED"]]
[2,1767225600,"ph1b","PHARMACY","PH-1","P1",["REVERT","09506000134352","SN1"],["REVERTED"]]
[2,1767225600,"au1","AUTHORITY","AU-1","A1",["AUDIT","09506000134352","SN1"],["SHOWN",4]]"#,
            ),
            ("ph1 AUDIT 09506000134352 SN1", "REFUSED 1 ROLE"),
            ("au1 AUDIT 09506000134352 SN9", "SHOWN 0"),
        ],
    },
];

/// Spelling, samples and handovers.
pub const HANDOVERS: &[Example] = &[
    Example {
        shows: "a line that is not spelt exactly is no question",
        moments: &[NEW_YEAR],
        lines: &[
            ("ph1  VERIFY 09506000134352 SN1", "FAULT FIELDS"),
            ("", "FAULT FIELDS"),
            ("ph1 VERIFY 09506000134352", "FAULT FIELDS"),
            ("ph1 verify 09506000134352 SN1", "FAULT WORD"),
            ("-x VERIFY 09506000134352 SN1", "FAULT USER"),
            ("zed VERIFY 09506000134352 SN1", "FAULT NOBODY"),
            ("ph1 VERIFY 09506000134352 SN1\r", "FAULT RETURN"),
            ("ph1 VERIFY 09506000134352 SN1", "ALERT UNKNOWN FLAGGED 1"),
        ],
    },
    Example {
        shows: "a sample goes to the authorities until its batch is withdrawn",
        moments: &[NEW_YEAR],
        lines: &[
            ("mah1 UPLOAD 09506000134352 SN1 B1 280200", "UPLOADED"),
            ("wh1 SAMPLE 09506000134352 SN1", "DECOMMISSIONED"),
            (
                "wh1 STATUS 09506000134352 SN1",
                "STATUS SAMPLED FREE AUTHORITIES B1 280200",
            ),
            ("mah1 WITHDRAW 09506000134352 B1", "LOCKED 0"),
            (
                "wh1 VERIFY 09506000134352 SN1",
                "ALERT WITHDRAWN UNFLAGGED 1",
            ),
        ],
    },
    Example {
        shows: "a held pack is handed over once, where it is held",
        moments: &[NEW_YEAR],
        lines: &[
            ("mah1 UPLOAD 09506000134352 SN1 B1 280200", "UPLOADED"),
            ("ph1 HOLD 09506000134352 SN1", "DECOMMISSIONED"),
            ("ph2 HANDOVER 09506000134352 SN1", "REFUSED 12 OTHER"),
            ("ph1b HANDOVER 09506000134352 SN1", "HANDED_OVER"),
            ("ph1b HANDOVER 09506000134352 SN1", "REFUSED 15 NOT_HELD"),
            ("ph1 REVERT 09506000134352 SN1", "REFUSED 11 WAS_SUPPLIED"),
            ("ph1 VERIFY 09506000134352 SN1", "ALERT SUPPLIED FLAGGED 1"),
            (
                "au1 STATUS 09506000134352 SN1",
                "STATUS SUPPLIED FREE NOWHERE B1 280200",
            ),
            (
                "au1 REPORT 09506000134352",
                "PRODUCT 09506000134352 HOLDER MAH-1 ALERTS 1 FLAGGED 1\n\
                BATCH B1 FREE ACTIVE 0 HELD 0 SUPPLIED 1 EXPORTED 0 SAMPLED 0 DESTROYED 0 STOLEN 0\n\
                END",
            ),
        ],
    },
    Example {
        shows: "a pack is handed over by a pharmacy alone, while it is held and its batch is free",
        moments: &[NEW_YEAR],
        lines: &[
            ("mah1 UPLOAD 09506000134352 SN1 B1 280200", "UPLOADED"),
            ("ph1 HANDOVER 09506000134352 SN1", "REFUSED 15 NOT_HELD"),
            ("wh1 HANDOVER 09506000134352 SN1", "REFUSED 1 ROLE"),
            ("ph1 HANDOVER 09506000134352 SN9", "REFUSED 2 UNKNOWN"),
            ("ph1 HOLD 09506000134352 SN1", "DECOMMISSIONED"),
            ("mah1 RECALL 09506000134352 B1", "LOCKED 0"),
            ("ph1 HANDOVER 09506000134352 SN1", "REFUSED 7 LOCKED"),
        ],
    },
];
