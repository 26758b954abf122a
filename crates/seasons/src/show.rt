// All that a state holds, places of zeros left out.
use downstream::{Cluster, Entry, Report};
use std::io;
use std::io::Write;
use window::Window;

fn show_cluster(to: &mut impl Write, name: &str, c: &Cluster) -> io::Result<()> {
    write!(to, " {name} {} {} {}", c.members, c.u, c.r)?;
    for (place, share) in c.shares.iter().enumerate() {
        if *share != 0 {
            write!(to, " {place}={share}")?;
        }
    }
    Ok(())
}

fn show_reports(to: &mut impl Write, reports: &[Report]) -> io::Result<()> {
    to.write_all(b" reports")?;
    for (member, r) in reports.iter().enumerate() {
        if r.heard || r.number != 0 || r.mask != 0 {
            write!(
                to,
                " {member}={}/{}/{}",
                r.number,
                r.mask,
                u8::from(r.heard)
            )?;
        }
    }
    Ok(())
}

fn show_entries(to: &mut impl Write, entries: &[Entry]) -> io::Result<()> {
    to.write_all(b" entries")?;
    for (place, e) in entries.iter().enumerate() {
        if e.count != 0 || e.complaints != 0 {
            write!(to, " {place}={}/{}", e.count, e.complaints)?;
        }
    }
    Ok(())
}

pub(crate) fn show(to: &mut impl Write, w: &Window) -> io::Result<()> {
    let d = &w.downstream;
    to.write_all(b":")?;
    show_cluster(to, "sending", &w.sending)?;
    write!(to, " quantum {} sent {}", w.quantum, w.sent)?;
    show_cluster(to, "receiving", &d.cluster)?;
    write!(to, " point {}", d.point)?;
    show_reports(to, &d.reports)?;
    show_entries(to, &d.entries)
}
