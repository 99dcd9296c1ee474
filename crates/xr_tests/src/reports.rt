// What no run gives of reports and summaries: each name with each code, and counts beyond a load's.
mod lists;
mod names;
mod summaries;
