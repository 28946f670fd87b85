// binomial(n,r) = n (n-1) .. (n-r+1) / r!. Up to six factors are multiplied, and their product is divided by r!. From
// there on each step multiplies by one factor and divides by one. Every division is exact, and by a constant.
//
// The steps stand one by one and in no loop: tried, and slower, by half, since a loop divides by a variable.
ghost use Rattle.std.specs.Prelude.{◌≡◌, suc, ◌*◌, ◌≤◌, ◌<◌};
ghost use Rattle.counts.specs.Counts as counted;
ghost use Rattle.binomials.specs.ProductForm.{falling};
ghost use Rattle.binomials.specs.ProductForm as form;

// The product of i factors with one more.
fn with_factor(product: u32, n: u32, i: u32) -> u32
    requires { (n < 32) × (i < 6) × (i ≤ n) × (product ≡ falling n i) }
    ensures { result ≡ falling n (suc i) }
{
    product * (n - i)
}

// binomial(n,r) by the product of r factors: divided by r!.
fn divided(product: u32, n: u32, r: u32, factors: u32, factorial: u32) -> u32
    requires { (r ≡ factors) × (product ≡ falling n factors) × (factorial ≡ form.factorial factors) }
    ensures { result ≡ counted.binomial n r }
{
    product / factorial
}

// binomial(n,r+1) from binomial(n,r).
fn next(binomial: u32, n: u32, r: u32) -> u32
    requires { (n < 32) × (r < 14) × (r ≤ n) × (binomial ≡ counted.binomial n r) }
    ensures { result ≡ counted.binomial n (suc r) }
{
    binomial * (n - r) / (r + 1)
}

// binomial(n,15) from binomial(n,14), by a product that can pass 2^32.
fn last(of_14: u32, n: u32) -> u32
    requires { (n < 32) × (14 ≤ n) × (of_14 ≡ counted.binomial n 14) }
    ensures { result ≡ counted.binomial n 15 }
{
    (of_14 as u64 * (n - 14) as u64 / 15) as u32
}

// binomial(n,r) for r above 10, from binomial(n,10). No usable shell has as many factors.
fn from_10(of_10: u32, n: u32, r: u32) -> u32
    requires { (n < 32) × (10 < r) × (r ≤ 15) × (r ≤ n) × (of_10 ≡ counted.binomial n 10) }
    ensures { result ≡ counted.binomial n r }
{
    let of_11 = next(of_10, n, 10);
    if r <= 11 {
        return of_11;
    }
    let of_12 = next(of_11, n, 11);
    if r <= 12 {
        return of_12;
    }
    let of_13 = next(of_12, n, 12);
    if r <= 13 {
        return of_13;
    }
    let of_14 = next(of_13, n, 13);
    if r <= 14 {
        return of_14;
    }
    last(of_14, n)
}

// binomial(n,r) for r from 5 on, from the product of five factors.
fn from_5(five: u32, n: u32, r: u32) -> u32
    requires { (n < 32) × (5 ≤ r) × (r ≤ 15) × (r ≤ n) × (five ≡ falling n 5) }
    ensures { result ≡ counted.binomial n r }
{
    if r <= 5 {
        return divided(five, n, r, 5, 120);
    }
    let of_6 = divided(with_factor(five, n, 5), n, 6, 6, 720);
    if r <= 6 {
        return of_6;
    }
    let of_7 = next(of_6, n, 6);
    if r <= 7 {
        return of_7;
    }
    let of_8 = next(of_7, n, 7);
    if r <= 8 {
        return of_8;
    }
    let of_9 = next(of_8, n, 8);
    if r <= 9 {
        return of_9;
    }
    let of_10 = next(of_9, n, 9);
    if r <= 10 {
        return of_10;
    }
    from_10(of_10, n, r)
}

// binomial(n,r) for r up to 15.
fn quotient(n: u32, r: u32) -> u32
    requires { (n < 32) × (r ≤ 15) × (r ≤ n) }
    ensures { result ≡ counted.binomial n r }
{
    if r == 0 {
        return 1;
    }
    if r <= 1 {
        return n;
    }
    let two = with_factor(n, n, 1);
    if r <= 2 {
        return divided(two, n, r, 2, 2);
    }
    let three = with_factor(two, n, 2);
    if r <= 3 {
        return divided(three, n, r, 3, 6);
    }
    let four = with_factor(three, n, 3);
    if r <= 4 {
        return divided(four, n, r, 4, 24);
    }
    from_5(with_factor(four, n, 4), n, r)
}

// The smaller of r and n - r, which have the same binomial.
fn fewer(n: u32, r: u32) -> u32
    requires { r ≤ n }
    ensures { (2 * result ≤ n) × (counted.binomial n result ≡ counted.binomial n r) }
{
    r.min(n - r)
}

// binomial(n,r), by the smaller number of factors.
pub fn binomial(n: usize, r: usize) -> u32
    requires { n < 32 }
    ensures { result ≡ counted.binomial n r }
{
    if n < r {
        return 0;
    }
    let n = n as u32;
    quotient(n, fewer(n, r as u32))
}
