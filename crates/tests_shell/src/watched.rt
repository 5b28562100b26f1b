//! The figures for a program that watches, as Prometheus reads them.

use figures::{NetworkFigures, Totals, figures_text};
use std::test::Fail;

/// What two networks give: one that is online, and one that is begun anew and whose names have a
/// quotation mark, a backslash and LF.
const TEXT: &[u8] = b"# HELP bnc_network_online Whether the network has let us in.
# TYPE bnc_network_online gauge
bnc_network_online{user=\"ann\",network=\"net\"} 1
bnc_network_online{user=\"b\\\"o\\\\b\",network=\"\\n\"} 0
# HELP bnc_sessions Clients of the network that are served.
# TYPE bnc_sessions gauge
bnc_sessions{user=\"ann\",network=\"net\"} 2
bnc_sessions{user=\"b\\\"o\\\\b\",network=\"\\n\"} 0
# HELP bnc_kept_messages Messages that are kept of the network.
# TYPE bnc_kept_messages gauge
bnc_kept_messages{user=\"ann\",network=\"net\"} 12
# HELP bnc_kept_bytes Bytes of the messages that are kept of the network.
# TYPE bnc_kept_bytes gauge
bnc_kept_bytes{user=\"ann\",network=\"net\"} 345
# HELP bnc_cuts_total Sessions that were cut, since their client took too little.
# TYPE bnc_cuts_total counter
bnc_cuts_total 0
# HELP bnc_refusals_total Connections and logins that were refused.
# TYPE bnc_refusals_total counter
bnc_refusals_total 6
# HELP bnc_dials_total Dials of networks.
# TYPE bnc_dials_total counter
bnc_dials_total 18446744073709551615
# HELP bnc_log_lines_lost_total Lines of the log that were lost.
# TYPE bnc_log_lines_lost_total counter
bnc_log_lines_lost_total 1
";

#[test]
fn figures_of_two_networks(rt: HostRuntime) -> Result<(), Fail> {
    let networks = [
        NetworkFigures {
            user: b"ann",
            network: b"net",
            is_online: true,
            sessions: 2,
            kept: Some((12, 345)),
        },
        NetworkFigures {
            user: b"b\"o\\b",
            network: b"\n",
            is_online: false,
            sessions: 0,
            kept: None,
        },
    ];
    let totals = Totals {
        cuts: 0,
        refusals: 6,
        dials: u64::MAX,
        lost: 1,
    };
    let text = figures_text(rt.alloc(), &networks, totals)?;
    assert!(rt; text.as_slice() == TEXT);
    Ok(())
}
