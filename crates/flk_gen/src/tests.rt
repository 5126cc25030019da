use crate::Workload;

// The first two samples and the last one of seed 1 and one second, which were computed by other means.
#[test]
fn samples_of_a_second(rt: HostRuntime) {
    let mut workload = Workload::new(1, 1);
    assert_eq!(rt; workload.next_sample(), Some([0, -22401, 22536]));
    assert_eq!(rt; workload.next_sample(), Some([3397, -23897, 20645]));
    let mut last = None;
    for _ in 2..2400 {
        last = workload.next_sample();
    }
    assert_eq!(rt; last, Some([-3397, -20584, 23968]));
    assert_eq!(rt; workload.next_sample(), None);
}
