// cycle.rs: the factor by which a cycle scales a correction, over regions of the store.
ghost use Rattle.std.specs.Prelude.{◌≡◌, length};
ghost use Rattle.store.specs.Region.{part};
ghost use Rattle.correction.specs.Scaling.{ProductsOk, products_of, quotient_of, scale_of, correction_factor_of, factor_of};

use refusal::Refusal;

// A correction's product with the residual, and with its own image.
#[derive(Clone, Copy)]
pub struct Products {
    pub numerator: f64,
    pub denominator: f64,
}

// The two products of a correction, each in row order.
pub fn correction_products(
    f: &[f64],
    n: usize,
    correction: usize,
    residual: usize,
    product: usize,
) -> Products
    requires { ProductsOk (length f.now) n correction residual product }
    ensures { result ≡ products_of n (part correction n f.now)
        (part residual n f.now) (part product n f.now) }
{
    let mut numerator = 0.0;
    let mut denominator = 0.0;
    for row in 0..n {
        numerator += f[correction + row] * f[residual + row];
        denominator += f[correction + row] * f[product + row];
    }
    Products {
        numerator,
        denominator,
    }
}

// Zero where the denominator is not above zero.
fn quotient(numerator: f64, denominator: f64) -> f64
    ensures { result ≡ quotient_of numerator denominator }
{
    if denominator > 0.0 {
        numerator / denominator
    } else {
        0.0
    }
}

// Questions 26 and 27: the products are finite, and so is their quotient.
fn scale(numerator: f64, denominator: f64) -> Result<f64, Refusal>
    ensures { result ≡ factor_of (scale_of numerator denominator) }
{
    if !(float::is_finite(numerator) & float::is_finite(denominator)) {
        return Err(refusal::BAD_CORRECTION_PRODUCT);
    }
    let factor = quotient(numerator, denominator);
    if float::is_finite(factor) {
        Ok(factor)
    } else {
        Err(refusal::BAD_CORRECTION_SCALE)
    }
}

// The factor that scales a correction.
pub fn correction_factor(
    f: &[f64],
    n: usize,
    correction: usize,
    residual: usize,
    product: usize,
) -> Result<f64, Refusal>
    requires { ProductsOk (length f.now) n correction residual product }
    ensures { result ≡ factor_of (correction_factor_of n (part correction n f.now)
        (part residual n f.now) (part product n f.now)) }
{
    let Products {
        numerator,
        denominator,
    } = correction_products(f, n, correction, residual, product);
    scale(numerator, denominator)
}
