//! A fare file to begin with.

/// The sample fare file with caps, as `examples/sample.toml`.
pub const SAMPLE_FARES: &str =
    "# A sample fare file with caps: one bus route, five stations, three zones. The numbers are nobody's real fares.
zones = 3
minutes = [90, 100, 110]
single = [
  { from = 1, to = 1, peak = 280, off = 270 },
  { from = 1, to = 2, peak = 340, off = 280 },
  { from = 1, to = 3, peak = 370, off = 300 },
  { from = 2, to = 2, peak = 200, off = 190 },
  { from = 2, to = 3, peak = 210, off = 195 },
  { from = 3, to = 3, peak = 200, off = 180 },
]
band = [
  { from = 0, to = 0, day = 525, week = 2470 },
  { from = 1, to = 2, day = 890, week = 4470 },
  { from = 1, to = 3, day = 1050, week = 5250 },
]
holidays = [19723]
station = [
  { place = 10, low = 1, high = 1, operator = 1 },
  { place = 11, low = 1, high = 2, operator = 1 },
  { place = 12, low = 2, high = 2, operator = 2 },
  { place = 13, low = 2, high = 3, operator = 2 },
  { place = 14, low = 3, high = 3, operator = 3 },
]
route = [
  { place = 50, operator = 4 },
]
interchange = [
  { a = 10, b = 12, seconds = 1200 },
]

[rules]
bus = 175
maximum = 860
hopper = 3600
same_free = 120
same_limit = 1800
";
