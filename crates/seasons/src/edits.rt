// A window's state with one field changed, well formed or not. Nothing changes where a line names a place past the last.
use downstream::{Cluster, Downstream, Entry, Report};
use script::input::{Numbers, short};

pub(crate) fn put_bounds(c: &mut Cluster, args: &Numbers) {
    c.members = short(args.at[1]);
    c.u = short(args.at[2]);
    c.r = short(args.at[3]);
}

pub(crate) fn put_share(c: &mut Cluster, args: &Numbers) {
    if let Some(share) = c.shares.get_mut(args.at[1] as usize) {
        *share = short(args.at[2]);
    }
}

pub(crate) fn put_report(d: &mut Downstream, args: &Numbers) {
    if let Some(report) = d.reports.get_mut(args.at[1] as usize) {
        *report = Report {
            number: args.at[2],
            mask: args.at[3],
            heard: args.at[4] == 1,
        };
    }
}

pub(crate) fn put_entry(d: &mut Downstream, args: &Numbers) {
    if let Some(entry) = d.entries.get_mut(args.at[1] as usize) {
        *entry = Entry {
            count: short(args.at[2]),
            complaints: args.at[3],
        };
    }
}
