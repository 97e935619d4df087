//! What `demo` answers. Rows as those of worked machines (`rows`).

/// Machines that are made from a number.
pub const NUMBERS: &str = "== a machine and its image from a number, where the input is not read
armcaps 1
$ 0 demo 1 8
armcaps demo 1 8
admitted 6 parked 2
entries 20000 selected 2346
words 5837 changed 4351
sum 310192666855156
$ 0 demo 1 1
armcaps demo 1 1
admitted 1 parked 0
entries 20000 selected 2345
words 5833 changed 4349
sum 310172123020657
$ 0 demo 7 8
armcaps demo 7 8
admitted 8 parked 0
entries 20000 selected 2627
words 6539 changed 4916
sum 308196728184541
$ 0 demo 007 08
armcaps demo 7 8
admitted 8 parked 0
entries 20000 selected 2627
words 6539 changed 4916
sum 308196728184541
$ 0 demo 4294967295 64
armcaps demo 4294967295 64
admitted 64 parked 0
entries 20000 selected 2665
words 6658 changed 4941
sum 309519172364856
";
