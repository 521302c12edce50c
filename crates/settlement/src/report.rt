// The list and the sum of a region.
use crate::delivery::Delivery;
use crate::money::Cents;
use std::io;

pub(crate) fn print_region(rt: &impl Print, deliveries: &[&Delivery]) -> io::Result<()> {
    let Some(first) = deliveries.first() else {
        return Ok(());
    };
    println!(rt; "region {}", first.region)?;
    for delivery in deliveries {
        println!(rt;
            "  {} {} {}",
            delivery.key, delivery.amount, delivery.supplier
        )?;
    }
    let sum = deliveries.iter().fold(
        Cents::ZERO,
        |sum, delivery| sum.saturating_add(delivery.amount),
    );
    println!(rt; "  deliveries {}, sum {sum}", deliveries.len())
}
