ghost use Rattle.std.specs.Prelude.{◌≡◌, ◌≤◌, Bool, true, false, length};
ghost use Rattle.std.specs.List.Sorted.{IsPartitionedBy, IsPartitionPoint};

/// What comes after some items of a list, and not after others.
pub trait ComesAfter<T> {
    /// Whether it comes after an item.
    ghost after: { Self → T → Bool };

    /// Whether it comes after an item.
    fn comes_after(&self, item: &T) -> bool
        ensures { result ≡ after self.now item.now };
}

/// How many of some items come before what is sought.
pub fn place_among<T: Copy, S: ComesAfter<T>>(items: &[T], sought: &S) -> usize
    requires { IsPartitionedBy (S.after sought.now) items.now }
    ensures within { result ≤ length items.now }
    ensures place { IsPartitionPoint (λ item. S.after sought.now item ≡ true) (λ item. S.after sought.now item ≡ false) items.now result }
{
    items.partition_point(|item| sought.comes_after(item))
}
